//! The laws, from the paths of a design to the pulses of its runs. Each function is empty, and its clause is the law.
//!
//! A proof that needs a law calls its function, and has the clause as a fact. All numbers are femtoseconds, periods or
//! places; nothing is computed. In order: what makes a design ready, the pulses of a run and their paths, clean runs,
//! steps and depths, values, the filling of the pipeline, and what is signed off.

ghost use Rattle.pulse_laws.specs.Hops.{OrdersPlace, PathsExist, PathsHaveOrigins, StepsAreOne};
ghost use Rattle.pulse_laws.specs.Wires.{OrdersRank, WiresAreSigned};
ghost use Rattle.pulse_laws.specs.Statements.{CircuitsAreReady, ClocksRise, DepthsExist, DesignsAreSigned, FillingsExist, OrderIsFree, OutputStepsBySum, RunsAreClean, RunsExist, RunsHaveFillBits, RunsHaveFillings, RunsHaveTags, RunsHaveValues, RunsKeepSpreads, SignedAsWanted, SignedInAnyOrder, SpreadsFill, StepsBySpread, StepsExist, TagsMakeClean, ValuesBelow, ValuesExist};

/// A well-formed design of good shape, with an order of its cells, has all that the other laws ask of a design.
///
/// Good shape: no net with two readers, no ring, no data or joined clock on a clock pin, no clock on data, at a merger or
/// at an output. The order is a rank that rises from each cell to those that read from it. It turns what the readers of
/// files and the rules on shape promise into `IsReady`.
pub fn circuits_are_ready()
    ensures { CircuitsAreReady }
{}

/// A ready design has a run for all words and every number of clock pulses, so that what is said of every run is said of some.
pub fn runs_exist()
    ensures { RunsExist }
{}

/// Each pulse of a run is a pulse on a timing path: it has a path, a number and a delay on each arc, and its time is the
/// tick of its number and all its delays. No rule of timing is asked.
///
/// Different pulses of one net differ in path or number, and pulses that share a start share its delays. At a gate's clock
/// pin there are as many as the clock has, and pulse `k` has number `k`. By it a rule that looks at paths speaks of pulses.
pub fn runs_have_tags()
    ensures { RunsHaveTags }
{}

/// A run whose pulses are tagged so has no two pulses too near, where no offence of dead times exists, and none in a zone,
/// where none of windows exists; passive cells, clock pins, data pins and outputs each apart.
///
/// It needs that no net has two readers. Each rule that finds no offence gives its part of "the run is clean".
pub fn tags_make_clean()
    ensures { TagsMakeClean }
{}

/// Where no offence of dead times and windows exists, every run of a well-formed design of good shape, with an order of
/// its cells, is clean.
pub fn runs_are_clean()
    ensures { RunsAreClean }
{}

/// Two pulses of a run differ in time by the periods between their numbers and an amount from the spread of their paths,
/// the shared spread where the numbers are equal.
///
/// It is what the least and greatest difference of two paths, as a tool computes them, say of pulses.
pub fn runs_keep_spreads()
    ensures { RunsKeepSpreads }
{}

/// Each whole number from the least difference of two paths to the greatest is the difference of some delays on them.
///
/// So each time of a zone that lies within the spread is met by some choice of delays.
pub fn spreads_fill()
    ensures { SpreadsFill }
{}

/// At a pin where no window is broken and no pulse runs ahead, each path to it, a gate's data pin or an output, has its
/// steps, a natural number: a pulse `p` comes after clock pulse, or strobe, `n` exactly where `n < p + steps`, whatever the delays.
///
/// It asks a period of at least 1 fs, and a setup and hold of at least 1 fs at the pin. Steps are what depths add up.
pub fn steps_exist()
    ensures { StepsExist }
{}

/// The steps of a path to a data pin where no window is broken are the least number of periods that reaches the least
/// difference to the clock's path.
///
/// By it a tool computes the steps from one number, without a search.
pub fn steps_by_spread()
    ensures { StepsBySpread }
{}

/// The steps of a path to an output where no window is broken are the least number of periods that reaches all delays of any
/// one pulse on it, less the strobe's offset.
pub fn output_steps_by_sum()
    ensures { OutputStepsBySum }
{}

/// A gate's clock pin has as many pulses as the clock, and each comes later than those before it, where no two come too
/// near there.
pub fn clocks_rise()
    ensures { ClocksRise }
{}

/// Each gate before a place in the order, and each output behind such gates alone, has a depth, a natural number: some
/// trail of hops from a data input leads to it, and all have one sum of steps. No run is asked.
///
/// It asks the rules of windows, pulses ahead, unequal sums and of dead times at clock pins at those gates alone.
pub fn depths_exist()
    ensures { DepthsExist }
{}

/// Under each word a ready design has values of all its nets, and only one for each.
pub fn values_exist()
    ensures { ValuesExist }
{}

/// In every run the gates before a place in the order find the values of the words, entry `j + depth` those of word `j`,
/// and the outputs behind them show them, where the rules hold at those gates and outputs. Behind the last word they are
/// the values under zeros.
///
/// It is for circuits that offend further on, or whose rules are checked gate after gate.
pub fn values_below()
    ensures { ValuesBelow }
{}

/// Where the rules of windows, pulses ahead, unequal sums and of dead times at clock pins hold everywhere, all gates find
/// the values of the words in every run, and all outputs show them. The dead times of passive cells are not asked.
pub fn runs_have_values()
    ensures { RunsHaveValues }
{}

/// There are filling values for the gates before a place in the order, and only one for each net.
pub fn fillings_exist()
    ensures { FillingsExist }
{}

/// Before word 0 has come to it, a gate before a place in the order finds the filling values, and an output behind such
/// gates shows them, where the rules hold as for the values.
pub fn runs_have_fillings()
    ensures { RunsHaveFillings }
{}

/// The same for a filling that is said by paths from gates: the gate finds its bits. For the gates before a place in the order
/// there is such a filling, and where the rules hold everywhere one for all gates.
pub fn runs_have_fill_bits()
    ensures { RunsHaveFillBits }
{}

/// The order within the lists of a run has no meaning: the same pulses in any order are clean where the run is, and give
/// the same bits at each strobe.
pub fn order_is_free()
    ensures { OrderIsFree }
{}

/// A well-formed design of good shape, with an order of its cells, in which no offence of dead times, windows, pulses ahead
/// and unequal sums exists, is signed off with its depths: every run is clean, and from its depth on each output shows its
/// values under the words.
pub fn designs_are_signed()
    ensures { DesignsAreSigned }
{}

/// It is then signed off for whatever is wanted of the outputs, as by another circuit, where that is their values.
pub fn signed_as_wanted()
    ensures { SignedAsWanted }
{}

/// And what is signed off holds of the same pulses in any order.
pub fn signed_in_any_order()
    ensures { SignedInAnyOrder }
{}

/// An order of the cells of a well-formed circuit, each behind those that it reads from, gives the rank that the other laws
/// ask for.
pub fn orders_rank()
    ensures { OrdersRank }
{}

/// JTL wires with an order of their cells, in which no window is broken, are signed off with their depths: every run is
/// clean, and from its depth on each output shows the bits of the data input that is named at the other end of its wire.
///
/// It asks JTLs alone, without dead time, an unread clock and one reader a net. It carries the promise of the first form of
/// netlists.
pub fn wires_are_signed()
    ensures { WiresAreSigned }
{}

/// A path leads to each pin of a ready design. So a list of all paths to a pin is never empty.
pub fn paths_exist()
    ensures { PathsExist }
{}

/// A path to a data pin of a gate or to an output begins at a data input, or passes a gate that comes earlier in the order.
pub fn paths_have_origins()
    ensures { PathsHaveOrigins }
{}

/// The steps of a path to a pin of a ready design are one number. So what a tool computes as steps are all that there are.
pub fn steps_are_one()
    ensures { StepsAreOne }
{}

/// An order of the cells of a well-formed circuit, each behind those that it reads from, gives a rank that is the place of each cell.
pub fn orders_place()
    ensures { OrdersPlace }
{}
