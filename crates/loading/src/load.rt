//! The stages from the bytes of a netlist to its circuit.

ghost use Rattle.std.specs.Prelude.{◌≡◌, ◌≢◌, ◌≤◌, ◌^◌, ◌<◌, List, length, IfOk, IfErr};
ghost use Rattle.std.specs.Option.{option_copied};
ghost use Rattle.rsfq_ids.specs.declared.circuit.Flat.{Flat};
ghost use Rattle.rsfq_ids.specs.WellFormed.{IsTable, IsFlat};
ghost use Rattle.verilog_lex.specs.Reads.{IsOnlyReading};
ghost use Rattle.verilog_tree.specs.Trees.{Module};
ghost use Rattle.verilog_tree.specs.Views.{view_source};
ghost use Rattle.verilog_tree.specs.Text.{IsSpelledTree};
ghost use Rattle.verilog_tree.specs.Words.{words};
ghost use Rattle.verilog_tree.specs.Fault.{Explains};
ghost use Rattle.loading.specs.declared.refusal.Refusal.{Refusal};
ghost use Rattle.loading.specs.declared.refusal.Refusal.TheVariants.{Memory};
ghost use Rattle.loading.specs.Stages.{HasTree, HasNoTreeFor, HasCircuit, IsRefused, AgreeButRings, token_place};

use crate::refusal::Refusal;
use bind_laws::laws::fault_is_one;
use flattener::flatten;
use rsfq_ids::circuit::Flat;
use rsfq_ids::list::List;
use rsfq_ids::table::CellTable;
use std::alloc::Global;
use verilog_bind::bind;
use verilog_lex::{Token, lex, tokens_are_words};
use verilog_tree::{ParseFault, Source, parse, words_spell_one_tree};

/// The place of a token in a text: its first byte, or the text's length where no token has the number.
fn token_place(text: &[u8], tokens: &List<Token>, number: u32) -> u32
    requires { length text.now ≤ 2 ^ 24 }
    ensures { result ≡ token_place text.now tokens.now number }
{
    match tokens.get(number as usize) {
        Some(token) => token.start,
        None => text.len() as u32,
    }
}

/// Why the tokens of a text spell no tree.
fn parse_refusal(text: &[u8], tokens: &List<Token>, fault: ParseFault) -> Refusal
    requires limit { length text.now ≤ 2 ^ 24 }
    requires reading { IsOnlyReading text.now tokens.now }
    requires fault { Explains (words text.now tokens.now) fault }
    ensures err { HasNoTreeFor text.now result }
    ensures agree { result ≢ Memory → (other : Refusal) → other ≢ Memory → HasNoTreeFor text.now other → result ≡ other }
{
    tokens_are_words(text, tokens.as_slice());
    match fault {
        ParseFault::NoTree { at } => Refusal::Parse(token_place(text, tokens, at)),
        ParseFault::Memory => Refusal::Memory,
    }
}

/// The tree of a text, which is the only one.
fn read_tree(alloc: Global, text: &[u8]) -> Result<Source, Refusal>
    requires { length text.now ≤ 2 ^ 24 }
    ensures tree { IfOk result (λ source. HasTree text.now (view_source source)) }
    ensures formed { IfOk result (λ source. IsSpelledTree (view_source source)) }
    ensures only { IfOk result (λ source. (other : List Module) → HasTree text.now other → other ≡ view_source source) }
    ensures err { IfErr result (HasNoTreeFor text.now) }
    ensures agree { IfErr result (λ why. why ≢ Memory → (other : Refusal) → other ≢ Memory → HasNoTreeFor text.now other → why ≡ other) }
{
    words_spell_one_tree();
    let tokens = lex(alloc, text)?;
    match parse(alloc, text, &tokens) {
        Ok(source) => Ok(source),
        Err(fault) => Err(parse_refusal(text, &tokens, fault)),
    }
}

/// The circuit of the netlist with this text, over these cells, under the top of this name or, where none is given, the one module that no
/// module instantiates. It is the only one.
///
/// Takes time n log n in the text, and then what [`flatten`] says: 64 passes over the bound source, and steps for each wire bit, cell and bit
/// that assigns or links join, of which some are taken once for each level.
///
/// # Errors
///
/// The refusal of the first stage that refuses: `Lex`, `Parse`, `Bind`, `Flat`, each with its first fault; and then the text has no circuit,
/// and no other refusal but `Memory` and, where a ring is named, that of a ring: of modules, with the same first module, or of wire bits.
/// What has a circuit has no refusal. `Memory` where memory could not be had.
pub fn load_circuit(
    alloc: Global,
    text: &[u8],
    cells: &CellTable,
    top: Option<&str>,
) -> Result<Flat, Refusal>
    requires limit { length text.now ≤ 2 ^ 24 }
    requires table { IsTable cells.now }
    ensures circuit { IfOk result (HasCircuit cells.now (option_copied top.entry) text.now) }
    ensures only { IfOk result (λ flat. (other : Flat) → HasCircuit cells.now (option_copied top.entry) text.now other → other ≡ flat) }
    ensures well_formed { IfOk result (IsFlat cells.now) }
    ensures refused { IfErr result (IsRefused cells.now (option_copied top.entry) text.now) }
    ensures none { IfErr result (λ why. why ≢ Memory → (flat : Flat) → ¬ HasCircuit cells.now (option_copied top.entry) text.now flat) }
    ensures agree { IfErr result (λ why. why ≢ Memory → (other : Refusal) → other ≢ Memory → IsRefused cells.now (option_copied top.entry) text.now other → AgreeButRings why other) }
    ensures unrefused { IfOk result (λ flat. (other : Refusal) → other ≢ Memory → ¬ IsRefused cells.now (option_copied top.entry) text.now other) }
{
    fault_is_one();
    let source = read_tree(alloc, text)?;
    let bound = bind(alloc, &source, cells, top)?;
    let flat = flatten(alloc, &bound, cells)?;
    Ok(flat)
}
