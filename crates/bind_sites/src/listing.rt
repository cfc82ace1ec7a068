//! The list of a module's sites, which contracts see as what stands in the tree.

ghost use Rattle.std.specs.Prelude.{◌≡◌, ◌∷◌, ◌++◌, [], Bool, Option, Some, None, map, IfOk, OnOk, codes};
ghost use Rattle.std.specs.List.{flat_map, enumerate_from};
ghost use Rattle.verilog_tree.specs.Views.{view_expr, view_head, view_instance, view_item, view_links, view_module, view_named, view_optional, view_pair, view_port};
ghost use Rattle.bind_sites.specs.Sites.{operands, sites, head_sites, full_sites, port_sites, item_sites, assign_sites, linked_sites, named_sites, ordered_sites, link_sites, instance_sites, is_output, Listed, Port, Wire, Operand};
ghost use Rattle.bind_sites.specs.View.{view_site, view_operand, operand_site};
ghost use Rattle.bind_sites.specs.Listing.{all_sites, Adds};

use crate::site::{Operand, Site};
use rsfq_ids::list::NoMemory;
use rsfq_ids::name::Name;
use std::alloc::Global;
use verilog_tree::{Dir, Expr, Head, HeadPort, Instance, Item, Links, Module, NamedLink};

/// The sites of a module in text order.
#[derive(Debug, Drop)]
pub struct Sites<'a> {
    sites: Vec<Site<'a>>,
}

impl<'a> Sites<'a> {
    /// The sites of a module in text order.
    pub fn of(alloc: Global, owner: &'a Module) -> Result<Sites<'a>, NoMemory>
        ensures { IfOk result (λ all. all_sites all ≡ sites (view_module owner.entry.now)) }
    {
        let mut all = Sites {
            sites: Vec::new(alloc),
        };
        all.add(Site::Module(owner.name.as_str()))?;
        all.head(&owner.head)?;
        all.items(owner.items.as_slice())?;
        Ok(all)
    }

    /// The sites.
    pub fn as_slice(&self) -> &[Site<'a>]
        ensures { map view_site result.now ≡ all_sites self.now }
    {
        self.sites.as_slice()
    }

    fn add(&mut self, site: Site<'a>) -> Result<(), NoMemory>
        ensures { OnOk result (Adds self.old self.new (view_site site.entry ∷ [])) }
    {
        self.sites.push(site)?;
        Ok(())
    }

    /// Names that stand in a head alone.
    fn listed(&mut self, names: &'a [Name]) -> Result<(), NoMemory>
        ensures { OnOk result (Adds self.old self.new (map Listed names.entry.now)) }
    {
        for name in names {
            self.add(Site::Listed(name.as_str()))?;
        }
        Ok(())
    }

    /// Ports that are declared in the head. A bare name takes direction and range of the port before it.
    fn ports(&mut self, ports: &'a [HeadPort]) -> Result<(), NoMemory>
        ensures { OnOk result (Adds self.old self.new (full_sites None (map view_port ports.entry.now))) }
    {
        let mut said = None;
        for port in ports {
            match port {
                HeadPort::Full {
                    dir,
                    wire: _,
                    range,
                    name,
                } => {
                    let output = is_output(*dir);
                    said = Some((output, *range));
                    self.port(name, said)?;
                }
                HeadPort::Bare(name) => self.port(name, said)?,
            }
        }
        Ok(())
    }

    /// A port in the head, with its direction and range where it has them.
    fn port(
        &mut self,
        name: &'a Name,
        said: Option<(bool, Option<(u32, u32)>)>,
    ) -> Result<(), NoMemory>
        ensures { OnOk result (Adds self.old self.new (port_sites said name.entry.now)) }
    {
        let name = name.as_str();
        self.add(Site::Listed(name))?;
        match said {
            None => Ok(()),
            Some((output, range)) => self.add(Site::Port {
                name,
                output,
                range,
            }),
        }
    }

    fn head(&mut self, head: &'a Head) -> Result<(), NoMemory>
        ensures { OnOk result (Adds self.old self.new (head_sites (view_head head.entry.now))) }
    {
        match head {
            Head::Plain(names) => self.listed(names.as_slice()),
            Head::Full(ports) => self.ports(ports.as_slice()),
        }
    }

    /// A declaration of ports in an item.
    fn directions(
        &mut self,
        dir: Dir,
        range: Option<(u32, u32)>,
        names: &'a [Name],
    ) -> Result<(), NoMemory>
        ensures { OnOk result (Adds self.old self.new (map (λ name. Port name (is_output dir) range) names.entry.now)) }
    {
        let output = is_output(dir);
        for name in names {
            self.add(Site::Port {
                name: name.as_str(),
                output,
                range,
            })?;
        }
        Ok(())
    }

    /// A declaration of wires.
    fn wires(&mut self, range: Option<(u32, u32)>, names: &'a [Name]) -> Result<(), NoMemory>
        ensures { OnOk result (Adds self.old self.new (map (λ name. Wire name range) names.entry.now)) }
    {
        for name in names {
            self.add(Site::Wire {
                name: name.as_str(),
                range,
            })?;
        }
        Ok(())
    }

    fn operand(&mut self, linked: bool, operand: Operand<'a>) -> Result<(), NoMemory>
        ensures { OnOk result (Adds self.old self.new (operand_site linked (view_operand operand.entry) ∷ [])) }
    {
        if linked {
            self.add(Site::Linked(operand))
        } else {
            self.add(Site::Assigned(operand))
        }
    }

    /// The operands of an expression.
    #[cycle(list_operands)]
    fn operands(&mut self, linked: bool, expr: &'a Expr) -> Result<(), NoMemory>
        ensures { OnOk result (Adds self.old self.new (map (operand_site linked) (operands (view_expr expr.entry.now)))) }
    {
        match expr {
            Expr::Name(name) => self.operand(
                linked,
                Operand {
                    name: name.as_str(),
                    select: None,
                },
            ),
            Expr::Bit(name, at) => self.operand(
                linked,
                Operand {
                    name: name.as_str(),
                    select: Some((*at, *at)),
                },
            ),
            Expr::Part(name, left, right) => self.operand(
                linked,
                Operand {
                    name: name.as_str(),
                    select: Some((*left, *right)),
                },
            ),
            Expr::Join(parts) => self.joined(linked, parts.as_slice()),
        }
    }

    /// The operands of the expressions in braces.
    #[cycle(list_operands)]
    fn joined(&mut self, linked: bool, parts: &'a [Expr]) -> Result<(), NoMemory>
        ensures { OnOk result (Adds self.old self.new (map (operand_site linked) (flat_map (λ part. operands (view_expr part)) parts.entry.now))) }
    {
        for part in parts {
            self.operands(linked, part)?;
        }
        Ok(())
    }

    fn assigns(&mut self, pairs: &'a [(Expr, Expr)]) -> Result<(), NoMemory>
        ensures { OnOk result (Adds self.old self.new (flat_map assign_sites (map view_pair pairs.entry.now))) }
    {
        for pair in pairs {
            self.assign(pair)?;
        }
        Ok(())
    }

    fn assign(&mut self, pair: &'a (Expr, Expr)) -> Result<(), NoMemory>
        ensures { OnOk result (Adds self.old self.new (assign_sites (view_pair pair.entry.now))) }
    {
        self.add(Site::Assign {
            to: &pair.0,
            from: &pair.1,
        })?;
        self.operands(false, &pair.0)?;
        self.operands(false, &pair.1)
    }

    /// The operands of a link.
    fn linked(&mut self, expr: &'a Option<Expr>) -> Result<(), NoMemory>
        ensures { OnOk result (Adds self.old self.new (linked_sites (view_optional expr.entry.now))) }
    {
        match expr {
            None => Ok(()),
            Some(expr) => self.operands(true, expr),
        }
    }

    fn named(&mut self, kind: &'a str, link: &'a NamedLink) -> Result<(), NoMemory>
        ensures { OnOk result (Adds self.old self.new (named_sites kind.entry.now (view_named link.entry.now))) }
    {
        self.add(Site::Named {
            kind,
            port: link.name.as_str(),
            expr: link.expr.as_ref(),
        })?;
        self.linked(&link.expr)
    }

    fn nameds(&mut self, kind: &'a str, links: &'a [NamedLink]) -> Result<(), NoMemory>
        ensures { OnOk result (Adds self.old self.new (flat_map (named_sites kind.entry.now) (map view_named links.entry.now))) }
    {
        for link in links {
            self.named(kind, link)?;
        }
        Ok(())
    }

    fn ordered(
        &mut self,
        kind: &'a str,
        place: usize,
        expr: &'a Option<Expr>,
    ) -> Result<(), NoMemory>
        ensures { OnOk result (Adds self.old self.new (ordered_sites kind.entry.now (place, view_optional expr.entry.now))) }
    {
        self.add(Site::Ordered {
            kind,
            place,
            expr: expr.as_ref(),
        })?;
        self.linked(expr)
    }

    fn ordereds(&mut self, kind: &'a str, links: &'a [Option<Expr>]) -> Result<(), NoMemory>
        ensures { OnOk result (Adds self.old self.new (flat_map (ordered_sites kind.entry.now) (enumerate_from 0 (map view_optional links.entry.now)))) }
    {
        for (place, link) in links.iter().enumerate() {
            self.ordered(kind, place, link)?;
        }
        Ok(())
    }

    fn links(&mut self, kind: &'a str, links: &'a Links) -> Result<(), NoMemory>
        ensures { OnOk result (Adds self.old self.new (link_sites kind.entry.now (view_links links.entry.now))) }
    {
        match links {
            Links::Named(links) => self.nameds(kind, links.as_slice()),
            Links::Ordered(links) => self.ordereds(kind, links.as_slice()),
        }
    }

    fn instance(&mut self, kind: &'a str, instance: &'a Instance) -> Result<(), NoMemory>
        ensures { OnOk result (Adds self.old self.new (instance_sites kind.entry.now (view_instance instance.entry.now))) }
    {
        self.add(Site::Instance {
            kind,
            name: instance.name.as_str(),
            links: &instance.links,
        })?;
        self.links(kind, &instance.links)
    }

    fn instances(&mut self, kind: &'a str, instances: &'a [Instance]) -> Result<(), NoMemory>
        ensures { OnOk result (Adds self.old self.new (flat_map (instance_sites kind.entry.now) (map view_instance instances.entry.now))) }
    {
        for instance in instances {
            self.instance(kind, instance)?;
        }
        Ok(())
    }

    fn item(&mut self, item: &'a Item) -> Result<(), NoMemory>
        ensures { OnOk result (Adds self.old self.new (item_sites (view_item item.entry.now))) }
    {
        match item {
            Item::Ports {
                dir,
                wire: _,
                range,
                names,
            } => self.directions(*dir, *range, names.as_slice()),
            Item::Wires { range, names } => self.wires(*range, names.as_slice()),
            Item::Assigns(pairs) => self.assigns(pairs.as_slice()),
            Item::Instances { kind, instances } => {
                self.instances(kind.as_str(), instances.as_slice())
            }
        }
    }

    fn items(&mut self, items: &'a [Item]) -> Result<(), NoMemory>
        ensures { OnOk result (Adds self.old self.new (flat_map item_sites (map view_item items.entry.now))) }
    {
        for item in items {
            self.item(item)?;
        }
        Ok(())
    }
}

fn is_output(dir: Dir) -> bool
    ensures { result ≡ is_output dir }
{
    match dir {
        Dir::Input => false,
        Dir::Output => true,
    }
}
