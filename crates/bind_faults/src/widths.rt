//! Two sides of other widths.

ghost use Rattle.std.specs.Prelude.{◌≡◌, ◌≢◌, ◌↔◌, ◌<◌, ◌≤◌, ◌*◌, ◌^◌, ℕ, length, IfSome, IfNone, IsTrue};
ghost use Rattle.std.specs.Option.{option_copied};
ghost use Rattle.verilog_tree.specs.Views.{view_expr, view_optional};
ghost use Rattle.bind_sites.specs.Sites.{operands};
ghost use Rattle.bind_sites.specs.Selects.{width_of};
ghost use Rattle.bind_sites.specs.Scope.{SelectWidth, ExprWidth};
ghost use Rattle.bind_sites.specs.View.{view_site};
ghost use Rattle.bind_names.specs.Scoped.{IsScope, HasNoDouble, sites_of};
ghost use Rattle.bind_forms.specs.Modules.{IsReached};
ghost use Rattle.bind_forms.specs.Faults.{HasWidths};
ghost use Rattle.bind_kinds.specs.Netlist.{IsNetlist, setting_of};
ghost use Rattle.bind_kinds.specs.Meanings.{IsMeantAt};
ghost use Rattle.bind_faults.specs.Sited.{InModule};
ghost use Rattle.bind_faults.specs.Widths.{FitsSites, AreSingle, HasSelected, HaveWidth, all_operands, LinkWidth, link_count, IsWidths, operand_count, both};

use crate::lookup::look;
use bind_hierarchy::Meaning;
use bind_kinds::{KindName, Netlist, kinds_are_one, ports_are_one};
use bind_names::{Scope, ranges_are_one, select, width_of};
use bind_sites::Site;
use verilog_tree::Expr;

/// Whether the module at a place of the text has fewer than 2^32 sites.
pub(crate) fn fits(netlist: &Netlist<'_, '_>, at: usize) -> bool
    requires { IsNetlist netlist.now }
    ensures { IsTrue result ↔ FitsSites (setting_of netlist.now) at }
{
    match netlist.scopes.get(at) {
        Some(scope) => scope.sites.len() < 1 << 32,
        None => true,
    }
}

/// The widths in bits of the two sides at a site, where they are not the same: of a link's expression and of its port, or of the right side
/// and the left side of an assign. The module is reached, and no reached module gives a name to two things of one sort. Nothing stands at a
/// site past the last.
pub(crate) fn width(netlist: &Netlist<'_, '_>, at: usize, site: usize) -> Option<(u64, u64)>
    requires netlist { IsNetlist netlist.now }
    requires reached { IsReached (setting_of netlist.now) at }
    requires single { AreSingle (setting_of netlist.now) }
    requires fits { FitsSites (setting_of netlist.now) at }
    ensures found { IfSome result (λ widths. InModule (setting_of netlist.now) at (λ all. HasWidths (setting_of netlist.now) all site widths.0 widths.1) × (widths.0 ≢ widths.1)) }
    ensures none { IfNone result ((have want : ℕ) → have ≢ want → ¬ InModule (setting_of netlist.now) at (λ all. HasWidths (setting_of netlist.now) all site have want)) }
{
    ranges_are_one();
    ports_are_one();
    kinds_are_one();
    let here = look(netlist, at, site)?;
    unless_same(widths_at(netlist, here.scope, here.site, here.meaning)?)
}

/// Two widths, where they are not the same.
fn unless_same(widths: (u64, u64)) -> Option<(u64, u64)>
    ensures found { IfSome result (λ found. (found ≡ widths) × (widths.0 ≢ widths.1)) }
    ensures none { IfNone result (widths.0 ≡ widths.1) }
{
    if widths.0 == widths.1 {
        None
    } else {
        Some(widths)
    }
}

/// The widths of the two sides at one site, given what the kind there means.
fn widths_at(
    netlist: &Netlist<'_, '_>,
    scope: &Scope<'_, '_>,
    site: &Site<'_>,
    meaning: Option<Meaning>,
) -> Option<(u64, u64)>
    requires netlist { IsNetlist netlist.now }
    requires scope { IsScope scope.now }
    requires meant { IsMeantAt (setting_of netlist.now) (view_site site.now) meaning }
    requires single { HasNoDouble (sites_of scope.now) (length (sites_of scope.now)) }
    requires few { operand_count (view_site site.now) < 2 ^ 32 }
    ensures found { IfSome result (λ widths. IsWidths (setting_of netlist.now) (sites_of scope.now) (view_site site.now) widths.0 widths.1) }
    ensures none { IfNone result ((have want : ℕ) → ¬ IsWidths (setting_of netlist.now) (sites_of scope.now) (view_site site.now) have want) }
{
    match *site {
        Site::Assign { to, from } => both(expr_width(scope, from), expr_width(scope, to)),
        Site::Named { kind, port, expr } => {
            let kind = KindName {
                name: kind,
                meaning,
            };
            both(link_width(scope, expr), netlist.port_width(kind, port))
        }
        Site::Ordered { kind, place, expr } => {
            let kind = KindName {
                name: kind,
                meaning,
            };
            both(link_width(scope, expr), netlist.width_at(kind, place))
        }
        _ => None,
    }
}

/// Two answers, where there are both.
fn both(one: Option<u64>, other: Option<u64>) -> Option<(u64, u64)>
    ensures { result ≡ both one other }
{
    match (one, other) {
        (Some(one), Some(other)) => Some((one, other)),
        _ => None,
    }
}

/// The width of a link's expression, where it has one.
fn link_width(scope: &Scope<'_, '_>, expr: Option<&Expr>) -> Option<u64>
    requires scope { IsScope scope.now }
    requires single { HasNoDouble (sites_of scope.now) (length (sites_of scope.now)) }
    requires few { link_count (view_optional (option_copied expr)) < 2 ^ 32 }
    ensures found { IfSome result (LinkWidth (sites_of scope.now) (view_optional (option_copied expr.entry))) }
    ensures none { IfNone result ((width : ℕ) → ¬ LinkWidth (sites_of scope.now) (view_optional (option_copied expr.entry)) width) }
{
    match expr {
        Some(expr) => expr_width(scope, expr),
        None => None,
    }
}

/// The width of an expression. `None` exactly where an operand has none: its name is neither declared nor made by a link, or bits are
/// selected of it that it lacks.
#[cycle(sum_widths)]
fn expr_width(scope: &Scope<'_, '_>, expr: &Expr) -> Option<u64>
    requires scope { IsScope scope.now }
    requires single { HasNoDouble (sites_of scope.now) (length (sites_of scope.now)) }
    requires few { length (operands (view_expr expr.now)) < 2 ^ 32 }
    ensures found { IfSome result (ExprWidth (sites_of scope.now) (view_expr expr.now)) }
    ensures small { IfSome result (λ width. width ≤ 2 ^ 32 * length (operands (view_expr expr.now))) }
    ensures none { IfNone result ((width : ℕ) → ¬ ExprWidth (sites_of scope.now) (view_expr expr.now) width) }
{
    match expr {
        Expr::Name(name) => operand_width(scope, name.as_str(), None),
        Expr::Bit(name, at) => operand_width(scope, name.as_str(), Some((*at, *at))),
        Expr::Part(name, left, right) => {
            operand_width(scope, name.as_str(), Some((*left, *right)))
        }
        Expr::Join(parts) => joined_width(scope, parts.as_slice()),
    }
}

/// The width of several expressions together.
#[cycle(sum_widths)]
fn joined_width(scope: &Scope<'_, '_>, parts: &[Expr]) -> Option<u64>
    requires scope { IsScope scope.now }
    requires single { HasNoDouble (sites_of scope.now) (length (sites_of scope.now)) }
    requires few { length (all_operands parts.now) < 2 ^ 32 }
    ensures found { IfSome result (HaveWidth (sites_of scope.now) (all_operands parts.now)) }
    ensures small { IfSome result (λ width. width ≤ 2 ^ 32 * length (all_operands parts.now)) }
    ensures none { IfNone result ((width : ℕ) → ¬ HaveWidth (sites_of scope.now) (all_operands parts.now) width) }
{
    let mut width = 0;
    for part in parts {
        width += expr_width(scope, part)?;
    }
    Some(width)
}

/// The width of an operand.
fn operand_width(scope: &Scope<'_, '_>, name: &str, wanted: Option<(u32, u32)>) -> Option<u64>
    requires scope { IsScope scope.now }
    requires single { HasNoDouble (sites_of scope.now) (length (sites_of scope.now)) }
    ensures found { IfSome result (SelectWidth (sites_of scope.now) name.now wanted) }
    ensures small { IfSome result (λ width. width ≤ 2 ^ 32) }
    ensures none { IfNone result ((width : ℕ) → ¬ SelectWidth (sites_of scope.now) name.now wanted width) }
{
    ranges_are_one();
    let range = scope.range_of(name)?;
    match wanted {
        None => Some(range_width(range)),
        Some(wanted) => selected_width(range, wanted),
    }
}

/// The width of a range.
fn range_width(range: Option<(u32, u32)>) -> u64
    ensures is { result ≡ width_of range }
    ensures small { result ≤ 2 ^ 32 }
{
    match range {
        None => 1,
        Some((left, right)) => width_of(Some((left, right))),
    }
}

/// How many bits are selected of a range.
fn selected_width(range: Option<(u32, u32)>, wanted: (u32, u32)) -> Option<u64>
    ensures found { IfSome result (HasSelected range wanted) }
    ensures small { IfSome result (λ count. count ≤ 2 ^ 32) }
    ensures none { IfNone result ((count : ℕ) → ¬ HasSelected range wanted count) }
{
    let (left, right) = range?;
    let (_, count) = select((left, right), wanted)?;
    Some(count)
}
