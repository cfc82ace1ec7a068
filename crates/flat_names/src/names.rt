//! Printed names: instance names from the top down and the own name, joined by dots.

ghost use Rattle.std.specs.Prelude.{◌≡◌, ◌<◌, Some, IfOk};
ghost use Rattle.std.specs.Option.{option_copied};
ghost use Rattle.bind_forms.specs.Bits.{width_of, index_at, bit_name};
ghost use Rattle.flat_places.specs.Paths.{longer};

use itoa::Buffer;
use rsfq_ids::list::NoMemory;
use rsfq_ids::name::Name;
use std::alloc::Global;

/// A name behind the path of instances that leads to it, if one does.
pub fn longer_path(alloc: Global, path: Option<&str>, name: &str) -> Result<Name, NoMemory>
    ensures { IfOk result (λ longer_name. longer_name ≡ longer (option_copied path.entry) name.now) }
{
    match path {
        None => Name::of(alloc, name),
        Some(path) => {
            let mut text = String::from_str(alloc, path)?;
            text.push('.')?;
            text.push_str(name)?;
            Name::of(alloc, text.as_str())
        }
    }
}

/// The index of the bit at a place, where the right end of the range is place 0.
fn index_at(range: (u32, u32), place: u32) -> u32
    requires { place < width_of (Some range) }
    ensures { result ≡ index_at range place }
{
    let (left, right) = range;
    if right <= left {
        right + place
    } else {
        right - place
    }
}

/// The printed name of a wire's bit.
pub fn bit_name(
    alloc: Global,
    name: &str,
    range: Option<(u32, u32)>,
    place: u32,
) -> Result<Name, NoMemory>
    requires { place < width_of range }
    ensures { IfOk result (λ printed. printed ≡ bit_name name.now range place) }
{
    let Some(range) = range else {
        return Name::of(alloc, name);
    };
    let mut text = String::from_str(alloc, name)?;
    let mut buffer = Buffer::new();
    text.push('[')?;
    text.push_str(buffer.format(index_at(range, place)))?;
    text.push(']')?;
    Name::of(alloc, text.as_str())
}
