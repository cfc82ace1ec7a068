//! The call that failed last, as a folder keeps it.
use crate::CallKind;

#[derive(Drop)]
pub(crate) struct Blamed {
    pub kind: CallKind,
    pub name: String,
}
