//! Expressions as parts of wires.

ghost use Rattle.std.specs.Prelude.{◌≡◌, ◌++◌, [], ◌∷◌, map, IfOk, OnOk};
ghost use Rattle.std.specs.List.{All, flat_map};
ghost use Rattle.bind_forms.specs.Binds.{BindsExpr, BindsOperand};
ghost use Rattle.bind_sites.specs.Sites.{operands};
ghost use Rattle.bind_sites.specs.View.{view_operand};
ghost use Rattle.verilog_tree.specs.Views.{view_expr};
ghost use Rattle.verilog_bind.specs.Fitting.{IsSound, IsUsed, AreParts};
ghost use Rattle.verilog_bind.specs.Numbered.{IsWires, sites_in};

use crate::bits::bits_of;
use crate::wires::Wires;
use bind_forms::BoundPart;
use bind_sites::Operand;
use rsfq_ids::list::{List, NoMemory};
use std::alloc::Global;
use verilog_tree::Expr;

impl<'s, 'a> Wires<'s, 'a> {
    /// The parts of an expression whose operands stand in the module, from the right.
    ///
    /// # Errors
    ///
    /// `NoMemory` alone, which may come at any time.
    pub(crate) fn bind_expr(&self, alloc: Global, expr: &Expr) -> Result<List<BoundPart>, NoMemory>
        requires wires { IsWires self.now }
        requires sound { IsSound (sites_in self.now) }
        requires used { All (IsUsed (sites_in self.now)) (operands (view_expr expr.now)) }
        ensures { IfOk result (BindsExpr self.now.list (view_expr expr.now)) }
    {
        let mut found = Vec::new(alloc);
        add_operands(&mut found, expr)?;
        let mut parts = self.parts(alloc, found.as_slice())?;
        parts.reverse();
        Ok(List::of(parts))
    }

    /// The parts that operands are, in their order.
    fn parts(&self, alloc: Global, found: &[Operand<'_>]) -> Result<Vec<BoundPart>, NoMemory>
        requires wires { IsWires self.now }
        requires sound { IsSound (sites_in self.now) }
        requires used { All (IsUsed (sites_in self.now)) (map view_operand found.now) }
        ensures { IfOk result (λ parts. AreParts self.now.list (map view_operand found.entry.now) parts.items) }
    {
        let mut parts = Vec::new(alloc);
        for operand in found {
            parts.push(self.part(*operand))?;
        }
        Ok(parts)
    }

    /// The part that an operand is.
    fn part(&self, operand: Operand<'_>) -> BoundPart
        requires wires { IsWires self.now }
        requires sound { IsSound (sites_in self.now) }
        requires used { IsUsed (sites_in self.now) (view_operand operand) }
        ensures { BindsOperand self.now.list (view_operand operand.entry) result }
    {
        let Some(number) = self.numbers.find(operand.name) else {
            unreachable!()
        };
        let (bit, count) = bits_of(self.list.as_slice()[number].range, operand.select);
        BoundPart {
            wire: number as u32,
            bit,
            count,
        }
    }
}

/// Adds an operand at the end.
fn add_operand<'e>(found: &mut Vec<Operand<'e>>, operand: Operand<'e>) -> Result<(), NoMemory>
    ensures { OnOk result (map view_operand found.new.items ≡ map view_operand found.old.items ++ view_operand operand.entry ∷ []) }
{
    found.push(operand)?;
    Ok(())
}

/// Adds the operands of an expression, from the left.
#[cycle(expr_operands)]
fn add_operands<'e>(found: &mut Vec<Operand<'e>>, expr: &'e Expr) -> Result<(), NoMemory>
    ensures { OnOk result (map view_operand found.new.items ≡ map view_operand found.old.items ++ operands (view_expr expr.entry.now)) }
{
    match expr {
        Expr::Name(name) => add_operand(
            found,
            Operand {
                name: name.as_str(),
                select: None,
            },
        ),
        Expr::Bit(name, at) => add_operand(
            found,
            Operand {
                name: name.as_str(),
                select: Some((*at, *at)),
            },
        ),
        Expr::Part(name, left, right) => add_operand(
            found,
            Operand {
                name: name.as_str(),
                select: Some((*left, *right)),
            },
        ),
        Expr::Join(all) => add_joined(found, all.as_slice()),
    }
}

/// Adds the operands of the expressions in braces, from the left.
#[cycle(expr_operands)]
fn add_joined<'e>(found: &mut Vec<Operand<'e>>, all: &'e [Expr]) -> Result<(), NoMemory>
    ensures { OnOk result (map view_operand found.new.items ≡ map view_operand found.old.items ++ flat_map (λ expr. operands (view_expr expr)) all.entry.now) }
{
    for expr in all {
        add_operands(found, expr)?;
    }
    Ok(())
}
