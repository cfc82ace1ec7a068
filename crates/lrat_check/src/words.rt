//! The words of the command line, `CNF PROOF`, read by a simple command of clap.

ghost use Rattle.std.specs.Prelude.{◌≡◌, ◌≢◌, ◌<◌, [], ◌∷◌, Some, None, true, false, codes, map, length, IfOk, OnOk, IsErrOf, string_bytes};
ghost use Rattle.lrat_check.specs.declared.words.WordsFault.TheVariants.{Memory};
ghost use Rattle.lrat_check.specs.Grammar.{has_values, values_in};
ghost use Rattle.lrat_check.specs.Usage.{command, positional, lrat_command, GivesValue, Joins};
ghost use Rattle.clap.specs.Words.{app_of, args_of, groups_of, rule_of, fault_of, matches_of, first_of, kind_of};
ghost use Rattle.clap.specs.Built.{TakesValue};
ghost use Rattle.clap.specs.declared.builder.command.Command.TheViews.{out-Command as fields_of};

use clap::error::ErrorKind;
use clap::{Arg, ArgAction, Command, Error as ParseError};
use std::alloc::{AllocError, Global};
use thiserror::Error;

/// Why words are not read.
#[derive(Debug, Drop, Error)]
pub(crate) enum WordsFault {
    /// The command refuses them.
    #[error("the words are refused")]
    Words,
    /// Memory was wanting.
    #[error("out of memory")]
    Memory,
}

impl From<AllocError> for WordsFault {
    ghost from_gives = { λ _ e. e ≡ Memory };

    fn from(_error: AllocError) -> WordsFault {
        WordsFault::Memory
    }
}

/// The names of the two files.
#[derive(Clone, Copy)]
pub(crate) struct LratWords<'a> {
    pub cnf: &'a str,
    pub proof: &'a str,
}

/// An argument that must stand.
fn positional_of<'a>(alloc: Global, id: &'a str) -> Arg<'a>
    ensures id { result.id ≡ id.entry }
    ensures rule { rule_of result ≡ positional id.entry.now }
    ensures joins { Joins result }
    ensures valued { TakesValue result }
{
    Arg::new(alloc, id).required(true).action(ArgAction::Set)
}

/// A command whose words do not begin with the program's name.
fn command_of<'a>(alloc: Global, name: &'a str) -> Command<'a>
    ensures app { app_of result ≡ command name.entry.now }
    ensures empty { (args_of result ≡ []) × (groups_of result ≡ []) }
    ensures plain { ((fields_of result).has_globals ≡ false) × ((fields_of result).subcommand_negates_reqs ≡ false) }
{
    Command::new(alloc, name).no_binary_name(true)
}

/// The command `rsfq_lrat CNF PROOF`.
fn lrat_command_of<'a>(alloc: Global) -> Result<Command<'a>, AllocError>
    ensures app { IfOk result (λ c. app_of c ≡ lrat_command) }
    ensures values { IfOk result (λ c. GivesValue c (codes "CNF") × GivesValue c (codes "PROOF")) }
{
    let cnf = positional_of(alloc, "CNF");
    let proof = positional_of(alloc, "PROOF");
    let start = command_of(alloc, "rsfq_lrat");
    start.arg(cnf)?.arg(proof)
}

/// The two values that the words are, but for a first `--`. Words that the command refuses, the words for help among them, are none.
pub(crate) fn lrat_words_of<'a>(
    alloc: Global,
    words: &'a [String],
) -> Result<LratWords<'a>, WordsFault>
    ensures taken { OnOk result (fault_of lrat_command (map string_bytes words.entry.now) ≡ []) }
    ensures refused { IsErrOf result WordsFault.Words → fault_of lrat_command (map string_bytes words.entry.now) ≢ [] }
    ensures two_values { IfOk result (λ w. values_in (map string_bytes words.entry.now) ≡ Some (w.cnf.now ∷ w.proof.now ∷ [])) }
    ensures other_words { IsErrOf result WordsFault.Words
        → has_values 2 (values_in (map string_bytes words.entry.now)) ≡ false }
    ensures cnf { IfOk result (λ w. Some w.cnf.now ≡ first_of (codes "CNF") (matches_of lrat_command (map string_bytes words.entry.now))) }
    ensures proof { IfOk result (λ w. Some w.proof.now ≡ first_of (codes "PROOF") (matches_of lrat_command (map string_bytes words.entry.now))) }
{
    let command = lrat_command_of(alloc)?;
    let matches = match command.try_get_matches_from(words) {
        Ok(matches) => matches,
        Err(error) => return Err(fault_from(&error)),
    };
    let cnf = matches.get_str("CNF").unwrap();
    let proof = matches.get_str("PROOF").unwrap();
    Ok(LratWords { cnf, proof })
}

/// The fault that an error of the parse is.
fn fault_from(error: &ParseError) -> WordsFault
    ensures memory { result ≡ WordsFault.Words → kind_of error.now ≢ ErrorKind.OutOfMemory }
{
    match error.kind() {
        ErrorKind::OutOfMemory => WordsFault::Memory,
        _ => WordsFault::Words,
    }
}
