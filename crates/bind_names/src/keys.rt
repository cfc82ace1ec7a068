//! The hasher of the names of a module.

use bind_sites::Site;
use name_table::TextKeyed;

/// The name that a site gives to a thing or to a link, or that its operand has.
fn name_of<'a>(site: &Site<'a>) -> Option<&'a str> {
    match site {
        Site::Listed(name) => Some(name),
        Site::Port { name, .. } => Some(name),
        Site::Wire { name, .. } => Some(name),
        Site::Instance { name, .. } => Some(name),
        Site::Named { port, .. } => Some(port),
        Site::Assigned(operand) => Some(operand.name),
        Site::Linked(operand) => Some(operand.name),
        _ => None,
    }
}

/// A hasher that has read all names of a module, so that none of them can be chosen to collide.
pub(crate) fn keys_of(sites: &[Site<'_>]) -> TextKeyed {
    let mut keys = TextKeyed::of(b"");
    for site in sites {
        if let Some(name) = name_of(site) {
            keys = keys.and(name.as_bytes());
        }
    }
    keys
}
