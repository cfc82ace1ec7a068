//! What the kinds at the sites of modules mean. A name of a kind is looked up once for each item that it is spelled in, however many instances
//! and links stand there.

ghost use Rattle.std.specs.Prelude.{◌≡◌, ◌∷◌, ◌++◌, ◌<◌, ℕ, List, Option, None, map, length, IfOk, OnOk, replicate};
ghost use Rattle.std.specs.List.{AllZip, flat_map};
ghost use Rattle.rsfq_ids.specs.declared.table.CellTable.{CellTable};
ghost use Rattle.verilog_tree.specs.Trees.{Module as Owner};
ghost use Rattle.verilog_tree.specs.Views.{view_item, view_module, view_source};
ghost use Rattle.bind_sites.specs.Sites.{Site as Sited, sites};
ghost use Rattle.bind_sites.specs.View.{view_site};
ghost use Rattle.bind_sites.specs.Listing.{all_sites};
ghost use Rattle.bind_hierarchy.specs.Kinds.{AreKinds};
ghost use Rattle.bind_hierarchy.specs.Modules.{Means};
ghost use Rattle.bind_forms.specs.Modules.{Setting, setting};
ghost use Rattle.bind_kinds.specs.Netlist.{AreMeaningsOf};
ghost use Rattle.bind_kinds.specs.Meanings.{IsMeantAt, AreLinked, instance_kinds};

use bind_hierarchy::{Kinds, Meaning};
use bind_sites::{Site, Sites};
use rsfq_ids::list::{List as Items, NoMemory};
use std::alloc::Global;
use verilog_tree::{Item, Module, Source};

/// Adds a meaning so many times.
fn add_times(
    meaning: Option<Meaning>,
    count: usize,
    meanings: &mut Items<Option<Meaning>>,
) -> Result<(), NoMemory>
    ensures { OnOk result (meanings.new ≡ meanings.old ++ replicate count meaning) }
{
    for _place in 0..count {
        meanings.push(meaning)?;
    }
    Ok(())
}

/// Adds what the kind of the instances in an item means, once for each instance.
fn add_item(
    kinds: &Kinds<'_>,
    item: &Item,
    meanings: &mut Items<Option<Meaning>>,
) -> Result<(), NoMemory>
    ensures { OnOk result ((modules : List Owner) (table : CellTable) (before : List (List ℕ)) → AreKinds modules table kinds.now → AllZip (Means modules table) before meanings.old → AllZip (Means modules table) (before ++ instance_kinds (view_item item.now)) meanings.new) }
{
    match item {
        Item::Instances { kind, instances } => {
            add_times(kinds.meaning(kind.as_str()), instances.len(), meanings)
        }
        _ => Ok(()),
    }
}

/// What the kinds of the instances in some items mean, in text order.
fn instance_meanings(
    alloc: Global,
    kinds: &Kinds<'_>,
    items: &[Item],
) -> Result<Items<Option<Meaning>>, NoMemory>
    ensures { IfOk result (λ meanings. (modules : List Owner) (table : CellTable) → AreKinds modules table kinds.now → AllZip (Means modules table) (flat_map instance_kinds (map view_item items.now)) meanings) }
{
    let mut meanings = Items::new(alloc);
    for item in items {
        add_item(kinds, item, &mut meanings)?;
    }
    Ok(meanings)
}

/// What the kind at a site means, and what those of the instances behind it mean, where `last` is what that of the last instance before it
/// means and `rest` what those of the instances from it on mean.
fn pass_site<'m>(
    site: &Site<'_>,
    last: Option<Meaning>,
    rest: &'m [Option<Meaning>],
) -> (Option<Meaning>, &'m [Option<Meaning>])
    ensures { (setting : Setting) (more : List Sited) → AreLinked setting last (view_site site.now ∷ more) rest.entry.now → IsMeantAt setting (view_site site.now) result.0 × AreLinked setting result.0 more result.1.now }
{
    match site {
        Site::Instance { .. } => match rest.split_first() {
            Some((first, behind)) => (*first, behind),
            None => (last, rest),
        },
        _ => (last, rest),
    }
}

/// What the kind at each site means, given what those of the instances among them mean.
fn site_meanings(
    alloc: Global,
    sites: &[Site<'_>],
    instances: &[Option<Meaning>],
) -> Result<Items<Option<Meaning>>, NoMemory>
    ensures { IfOk result (λ meanings. (setting : Setting) → AreLinked setting None (map view_site sites.now) instances.now → AllZip (IsMeantAt setting) (map view_site sites.now) meanings) }
{
    let mut meanings = Items::new(alloc);
    let mut last = None;
    let mut rest = instances;
    for site in sites {
        (last, rest) = pass_site(site, last, rest);
        meanings.push(last)?;
    }
    Ok(meanings)
}

/// What the kind at each site of a module means.
fn module_meanings(
    alloc: Global,
    kinds: &Kinds<'_>,
    owner: &Module,
    all: &Sites<'_>,
) -> Result<Items<Option<Meaning>>, NoMemory>
    requires { all_sites all.now ≡ sites (view_module owner.now) }
    ensures { IfOk result (λ meanings. (modules : List Owner) (table : CellTable) (top : Option (List ℕ)) → AreKinds modules table kinds.now → AreMeaningsOf (setting modules table top) (view_module owner.now) meanings) }
{
    let instances = instance_meanings(alloc, kinds, owner.items.as_slice())?;
    let meanings = site_meanings(alloc, all.as_slice(), instances.as_slice())?;
    Ok(meanings)
}

/// What the kind at each site of each module of a text means, by the sites of each.
pub fn meanings_of(
    alloc: Global,
    source: &Source,
    kinds: &Kinds<'_>,
    all: &[Sites<'_>],
) -> Result<Vec<Items<Option<Meaning>>>, NoMemory>
    requires { map all_sites all.now ≡ map sites (view_source source.now) }
    ensures { IfOk result (λ meanings. (table : CellTable) (top : Option (List ℕ)) → AreKinds (view_source source.now) table kinds.now → AllZip (AreMeaningsOf (setting (view_source source.now) table top)) (view_source source.now) meanings.items) }
{
    let mut meanings = Vec::new(alloc);
    for (at, sites) in all.iter().enumerate() {
        let Some(owner) = source.modules.get(at) else {
            unreachable!()
        };
        meanings.push(module_meanings(alloc, kinds, owner, sites)?)?;
    }
    Ok(meanings)
}
