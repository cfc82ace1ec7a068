//! The roles of lines by their words.

ghost use Rattle.std.specs.Prelude.{◌≡◌};
ghost use Rattle.env_table.specs.Roles.{fits_port, role_of};

/// What a line of the table gives.
#[derive(Clone, Copy, Debug, PartialEq, Eq)]
pub enum Role {
    /// The period of the clock.
    Period,
    /// The clock's port.
    Clock,
    /// When the pulses of data inputs come.
    Input,
    /// When outputs are read.
    Output,
}

/// The role of a word, if it is one of the four.
pub(crate) fn role_of(word: &[u8]) -> Option<Role>
    ensures { result ≡ role_of word.now }
{
    if word == b"period".as_slice() {
        Some(Role::Period)
    } else if word == b"clock".as_slice() {
        Some(Role::Clock)
    } else if word == b"input".as_slice() {
        Some(Role::Input)
    } else if word == b"output".as_slice() {
        Some(Role::Output)
    } else {
        None
    }
}

/// Whether a line of the role has such a port field: none for the period, else some name.
pub(crate) fn fits_port(role: Role, port: &[u8]) -> bool
    ensures { result ≡ fits_port role port.now }
{
    match role {
        Role::Period => port.is_empty(),
        Role::Clock => !port.is_empty(),
        Role::Input => !port.is_empty(),
        Role::Output => !port.is_empty(),
    }
}
