//! Which port bits a name stands for.

ghost use Rattle.std.specs.Prelude.{◌≡◌, ◌++◌, ◌∷◌, ◌==◌, ◌<◌, ◌≤◌, ◌^◌, ℕ, List, [], false, if◌then◌else◌, length, take, IfOk, OnOk, IfSome, IfNone};
ghost use Rattle.std.specs.Char.{is_ascii_digit};
ghost use Rattle.std.specs.List.{list_all};
ghost use Rattle.std.specs.Str.{bytes_eq};
ghost use Rattle.table_fields.specs.Records.{is_number};
ghost use Rattle.env_table.specs.Names.{is_bit_of, is_place, places_of};
ghost use Rattle.env_table.specs.Groups.{AreNamesOf, group_of};

use rsfq_ids::circuit::PortBit;
use rsfq_ids::id::{Id, PortId};
use rsfq_ids::list::NoMemory;
use std::alloc::Global;
use std::collections::BTreeMap;

fn are_digits(text: &[u8]) -> bool
    ensures { result ≡ list_all is_ascii_digit text.now }
{
    text.iter().all(|byte| byte.is_ascii_digit())
}

/// One digit or more.
#[tactic(auto, using(crate::proofs::TextFacts::digits_all))]
fn is_number(text: &[u8]) -> bool
    ensures { result ≡ is_number text.now }
{
    !text.is_empty() && are_digits(text)
}

/// One digit or more, and then `]`.
fn is_place(text: &[u8]) -> bool
    ensures { result ≡ is_place text.now }
{
    match text {
        [digits @ .., b']'] => is_number(digits),
        _ => false,
    }
}

/// The name that a printed name begins with, where `[`, digits and `]` follow it.
fn whole_of(printed: &str) -> Option<&str>
    ensures name { IfSome result (λ whole. (name : List ℕ) → is_bit_of name printed.now ≡ bytes_eq name whole.now) }
    ensures none { IfNone result ((name : List ℕ) → is_bit_of name printed.now ≡ false) }
{
    let bracket = printed.rfind('[')?;
    if is_place(&printed.as_bytes()[bracket + 1..]) {
        Some(&printed[..bracket])
    } else {
        None
    }
}

/// Port bits by a name that each has.
type Groups<'a> = BTreeMap<&'a str, Vec<PortId>>;

fn add_bit<'a>(groups: &mut Groups<'a>, name: &'a str, bit: PortId) -> Result<(), NoMemory>
    ensures { OnOk result ((asked : List ℕ) → group_of groups.new asked ≡ group_of groups.old asked ++ (if bytes_eq asked name.entry.now then bit ∷ [] else [])) }
{
    groups.entry(name)?.or_default().push(bit)?;
    Ok(())
}

/// The port bits by their printed names, and by the names of the whole ports of which they are bits.
#[derive(Drop)]
pub(crate) struct BitNames<'a> {
    printed: Groups<'a>,
    whole: Groups<'a>,
}

fn add_port<'a>(names: &mut BitNames<'a>, port: &'a PortBit, bit: PortId) -> Result<(), NoMemory>
    ensures printed { OnOk result ((asked : List ℕ) → group_of names.new.printed asked ≡ group_of names.old.printed asked ++ (if bytes_eq asked port.entry.now.name then bit ∷ [] else [])) }
    ensures whole { OnOk result ((asked : List ℕ) → group_of names.new.whole asked ≡ group_of names.old.whole asked ++ (if is_bit_of asked port.entry.now.name then bit ∷ [] else [])) }
{
    let printed = port.name.as_str();
    add_bit(&mut names.printed, printed, bit)?;
    if let Some(whole) = whole_of(printed) {
        add_bit(&mut names.whole, whole, bit)?;
    }
    Ok(())
}

impl<'a> BitNames<'a> {
    /// The names of the port bits of a circuit.
    pub(crate) fn of(alloc: Global, ports: &'a [PortBit]) -> Result<BitNames<'a>, NoMemory>
        requires { length ports.now < 2 ^ 32 }
        ensures { IfOk result (AreNamesOf ports.entry.now) }
    {
        let mut names = BitNames {
            printed: BTreeMap::new(alloc),
            whole: BTreeMap::new(alloc),
        };
        for (place, port) in ports.iter().enumerate() {
            add_port(&mut names, port, PortId::of(place as u32))?;
        }
        Ok(names)
    }

    /// The bits that a name stands for, in port order.
    pub(crate) fn bits_of(&self, name: &str) -> &[PortId]
        ensures { result.now ≡ (if length (group_of self.now.printed name.now) == 0 then group_of self.now.whole name.now else group_of self.now.printed name.now) }
    {
        if let Some(bits) = self.printed.get(name) {
            if !bits.is_empty() {
                return bits;
            }
        }
        match self.whole.get(name) {
            Some(bits) => bits,
            None => &[],
        }
    }
}
