//! The sorts of things that sites give names to.

ghost use Rattle.std.specs.Prelude.{◌≡◌};
ghost use Rattle.std.specs.Option.{option_map};
ghost use Rattle.bind_sites.specs.Again.{name_as, listed_name, direction_name, wire_name, instance_name, linked_name};
ghost use Rattle.bind_sites.specs.View.{view_site};

use crate::site::Site;

/// A sort of things that sites give names to.
#[derive(Clone, Copy, Debug, PartialEq, Eq)]
pub enum Sort {
    /// Ports in the head.
    Listed,
    /// Directions of ports, in the head or in items.
    Direction,
    /// Declarations of wires.
    Wire,
    /// Instances.
    Instance,
    /// Names that stand whole in links.
    Linked,
}

impl Sort {
    /// The name that a site gives to a thing of this sort.
    pub fn name<'a>(self, site: &Site<'a>) -> Option<&'a str>
        ensures { option_map (λ name. name.now) result ≡ name_as self (view_site site.now) }
    {
        match self {
            Sort::Listed => listed_name(site),
            Sort::Direction => direction_name(site),
            Sort::Wire => wire_name(site),
            Sort::Instance => instance_name(site),
            Sort::Linked => linked_name(site),
        }
    }
}

fn listed_name<'a>(site: &Site<'a>) -> Option<&'a str>
    ensures { option_map (λ name. name.now) result ≡ listed_name (view_site site.now) }
{
    match site {
        Site::Listed(name) => Some(name),
        _ => None,
    }
}

fn direction_name<'a>(site: &Site<'a>) -> Option<&'a str>
    ensures { option_map (λ name. name.now) result ≡ direction_name (view_site site.now) }
{
    match site {
        Site::Port { name, .. } => Some(name),
        _ => None,
    }
}

fn wire_name<'a>(site: &Site<'a>) -> Option<&'a str>
    ensures { option_map (λ name. name.now) result ≡ wire_name (view_site site.now) }
{
    match site {
        Site::Wire { name, .. } => Some(name),
        _ => None,
    }
}

fn instance_name<'a>(site: &Site<'a>) -> Option<&'a str>
    ensures { option_map (λ name. name.now) result ≡ instance_name (view_site site.now) }
{
    match site {
        Site::Instance { name, .. } => Some(name),
        _ => None,
    }
}

fn linked_name<'a>(site: &Site<'a>) -> Option<&'a str>
    ensures { option_map (λ name. name.now) result ≡ linked_name (view_site site.now) }
{
    match site {
        Site::Linked(operand) => operand.whole(),
        _ => None,
    }
}
