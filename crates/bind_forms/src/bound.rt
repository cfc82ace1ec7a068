//! A bound source: modules whose ports, wires, assigns and instances are numbered, with every name resolved.
//!
//! The places of a vector's bits count from the right end of its range, which is place 0.

use rsfq_ids::list::List;
use rsfq_ids::name::Name;

/// A port of a module. A range is written `[left:right]`, and a port without one is one bit wide.
#[derive(Debug, Drop)]
pub struct BoundPort {
    pub name: Name,
    pub output: bool,
    pub range: Option<(u32, u32)>,
}

/// A wire of a module. A range is written `[left:right]`, and a wire without one is one bit wide.
#[derive(Debug, Drop)]
pub struct BoundWire {
    pub name: Name,
    pub range: Option<(u32, u32)>,
}

/// Bits of one wire: `count` bits from place `bit` up, where places count from the right end of the range.
#[derive(Clone, Copy, Debug, PartialEq, Eq)]
pub struct BoundPart {
    /// The place of the wire among the module's wires.
    pub wire: u32,
    pub bit: u32,
    /// At least 1.
    pub count: u32,
}

/// `assign to = from`, the parts of each side from the right.
#[derive(Debug, Drop)]
pub struct BoundAssign {
    pub to: List<BoundPart>,
    pub from: List<BoundPart>,
}

/// What an instance is an instance of.
#[derive(Clone, Copy, Debug, PartialEq, Eq)]
pub enum BoundKind {
    /// A module, by its place in the bound source.
    Module(u32),
    /// A cell, by its row in the cell table.
    Cell(u32),
}

/// A port of an instance that is linked to parts of wires, from the right.
#[derive(Debug, Drop)]
pub struct BoundLink {
    /// The place of the port among the ports of the module, or among the inputs, the clock and the outputs of the cell.
    pub port: u32,
    pub parts: List<BoundPart>,
}

/// An instance with its links in text order. A link without an expression is left out.
#[derive(Debug, Drop)]
pub struct BoundInstance {
    pub name: Name,
    pub kind: BoundKind,
    pub links: List<BoundLink>,
}

/// A module. Its wires are its ports, in port order, and then its other wires in the order of declaration or first use.
#[derive(Debug, Drop)]
pub struct BoundModule {
    pub name: Name,
    pub ports: List<BoundPort>,
    pub wires: List<BoundWire>,
    pub assigns: List<BoundAssign>,
    pub instances: List<BoundInstance>,
}

/// The modules that the top reaches, in text order.
#[derive(Debug, Drop)]
pub struct Bound {
    pub modules: List<BoundModule>,
    /// The place of the top among the modules.
    pub top: u32,
}
