//! Reading a command line.
ghost use Rattle.std.specs.Prelude.{◌≡◌, ◌≤◌, ℕ, map, option_map, string_bytes, Bool, IfOk, IfErr, IfSome, IsSome, false, Some, codes};
ghost use Rattle.bk_base.specs.declared.limit.TheConstants.{STEPS_MOST};
ghost use Rattle.bk_base.specs.Bounds.{Bounds};
ghost use Rattle.clap.specs.Values.{kind_of};
ghost use Rattle.clap.specs.Words.{Text, app_of, rule_of, rows_of, found_of, first_of, one_of, subcommand_of};
ghost use Rattle.clap.specs.declared.builder.Command.TheViews.{out-Command as fields_of};
ghost use Rattle.bk_kit.specs.CommandLine.{store_rule, steps_rule, turns_rule, sizes_rule, trace_rule, from_rule, to_rule, only_name_rule, ocode_rule, only_rule, file_rule, compile_command, generate_command, run_command, check_command, show_command, interpret_command, kit_command, truth_text, part_text, ReadsNumber, ReadsLimits, Reads, AreLimits, RefusesValues, IsFaultOf, Refuses};

use crate::orders::Order;
use bk_base::Limits;
use bk_show::{Extent, Part};
use clap::error::ErrorKind;
use clap::{Arg, ArgAction, ArgMatches, Command, value_parser};
use std::alloc::{AllocError, Global};
use std::convert::AsStr;

/// The version that `--version` reports. `boot/bind` writes the digest of the tree in the place of the zeros.
const VERSION: &str = "1.1 (tree 0000000000000000)";

/// What is below the help on all.
const KIT_NOTES: &str = "\
Examples:
  bcpl check examples/queens.b
  bcpl run examples/queens.b
  bcpl show examples/six.b
  bcpl compile < examples/queens.b > queens.ocode
  bcpl generate < queens.ocode > queens.int
  bcpl interpret queens.int

Exit statuses:
  0 to 99  The program called STOP with this number. It is 0 where the program
           ended by itself, and where a filter took all of its input.
  100      The program called STOP with any other number.
  101      The source is refused.
  102      The OCODE is refused.
  103      The INTCODE is refused.
  104      The program divided by zero.
  105      The store was too small, or the program left it.
  106      The steps of the run were used up.
  107      The program came to a word that is no operation.
  108      There is no START.
  109      FILE or the input could not be read.
  110      The output could not be written.
  111      There was no memory.
  112      The command line is bad.
  113      The program did what is undefined (bcpl check alone).
From 101 on one line on the error stream says what happened.";

/// What is below the help on `compile`.
const COMPILE_NOTES: &str = "\
A section is written once it is accepted. The first one that is refused ends the
text; a line on the error stream says why.

Example:
  bcpl compile < examples/queens.b > queens.ocode";

/// What is below the help on `generate`.
const GENERATE_NOTES: &str = "\
A segment is written for each section that is accepted. The first one that is
refused ends the text; a line on the error stream says why.

Example:
  bcpl generate < queens.ocode > queens.int";

/// What is below the help on `run`.
const RUN_NOTES: &str = "\
Nothing is run of a source that is refused: `bcpl check FILE` shows the place, and
says what is meant. FILE may be - for the input.
With --trace each step has a line on the error stream, with its line of the source, A after it and names; calls and
returns have lines of their own. --from, --to and --only choose among the steps.

Examples:
  bcpl run examples/queens.b
  bcpl run --trace examples/six.b
  bcpl run --trace --only FACTORIAL --to 200 examples/factorial.b
  echo '2 * (3 + 4)' | bcpl run -s 8192 -t 100000 examples/calculator.b";

/// What is below the help on `check`.
const CHECK_NOTES: &str = "\
Input and output are those of the program; all else is reported on the error
stream. The check ends with the status of `run`, or with 113 where the program
does what is undefined: it uses a variable that was never set, a word outside its
vector, an argument that is missing, or the like. What is suspicious in the text
is reported after the run. A check takes much longer than a run. Of a source that
is refused it shows the place, and says what is meant. FILE may be - for the
input. A terminal shows places in colours, but not where NO_COLOR is set.

Examples:
  bcpl check examples/queens.b
  echo '2 * (3 + 4)' | bcpl check -t 100000 examples/calculator.b";

/// What is below the help on `show`.
const SHOW_NOTES: &str = "\
PART is all, tokens, tree, names, ocode or intcode; or map, for a program to read,
which says where the code comes from; or dot, the tree for Graphviz. The first
section that is refused ends the text, with the parts before the fault; a line on
the error stream says why. FILE may be - for the input.

Examples:
  bcpl show examples/six.b
  bcpl show --only tree examples/queens.b
  bcpl show --only dot examples/six.b | dot -Tsvg > six.svg";

/// What is below the help on `interpret`.
const INTERPRET_NOTES: &str = "\
Nothing is run of a text that is refused.

Examples:
  bcpl interpret queens.int
  bcpl interpret --sizes queens.int
  bcpl interpret --trace six.int
  bcpl interpret --trace --ocode six.ocode six.int";

/// Why a command line gives no order.
#[derive(Debug, Drop)]
pub enum LineFault {
    /// Help or the version was asked for; this is its text.
    Help(clap::Error),
    /// The words are no command of the kit.
    Bad,
    /// A growth was refused.
    Memory,
}

impl From<AllocError> for LineFault {
    ghost use Rattle.std.specs.Prelude.{◌≡◌};
    ghost use Rattle.bk_kit.specs.declared.command_line.LineFault.TheVariants.{Memory};

    ghost from_gives = { λ _ fault. fault ≡ Memory };

    fn from(_error: AllocError) -> LineFault {
        LineFault::Memory
    }
}

/// `-s WORDS`
fn store_option<'a>(alloc: Global) -> Arg<'a>
    ensures rule { rule_of result ≡ store_rule }
    ensures local { result.global ≡ false }
{
    Arg::new(alloc, "words")
        .short('s')
        .value_name("WORDS")
        .help("The words of the store, from 4096 to 4194304")
        .value_parser(value_parser!(u32).range(4096..=4_194_304))
        .default_value("262144")
}

/// `-t STEPS`
fn steps_option<'a>(alloc: Global) -> Arg<'a>
    ensures rule { rule_of result ≡ steps_rule }
    ensures local { result.global ≡ false }
{
    Arg::new(alloc, "steps")
        .short('t')
        .value_name("STEPS")
        .help("The most steps of the run, from 1 to 1000000000000")
        .value_parser(value_parser!(u64).range(1..=1_000_000_000_000))
        .default_value("1000000000")
}

/// `-t TURNS`
fn turns_option<'a>(alloc: Global) -> Arg<'a>
    ensures rule { rule_of result ≡ turns_rule }
    ensures local { result.global ≡ false }
{
    Arg::new(alloc, "turns")
        .short('t')
        .value_name("TURNS")
        .help("The most turns of the check, from 1 to 1000000000000")
        .value_parser(value_parser!(u64).range(1..=1_000_000_000_000))
        .default_value("100000000")
}

/// `--sizes`
fn sizes_flag<'a>(alloc: Global) -> Arg<'a>
    ensures rule { rule_of result ≡ sizes_rule }
    ensures local { result.global ≡ false }
{
    Arg::new(alloc, "sizes")
        .long("sizes")
        .help(
            "Write how many words stand before the stack and the greatest frame has, and run nothing",
        )
        .action(ArgAction::SetTrue)
}

/// `--trace`
fn trace_flag<'a>(alloc: Global) -> Arg<'a>
    ensures rule { rule_of result ≡ trace_rule }
    ensures local { result.global ≡ false }
{
    Arg::new(alloc, "trace")
        .long("trace")
        .help("Write a line on the error stream for each step")
        .action(ArgAction::SetTrue)
}

/// `--from N`
fn from_option<'a>(alloc: Global) -> Arg<'a>
    ensures rule { rule_of result ≡ from_rule }
    ensures local { result.global ≡ false }
{
    Arg::new(alloc, "from")
        .long("from")
        .value_name("N")
        .help("The first step that --trace writes")
        .value_parser(value_parser!(u64).range(1..=1_000_000_000_000))
        .default_value("1")
}

/// `--to N`
fn to_option<'a>(alloc: Global) -> Arg<'a>
    ensures rule { rule_of result ≡ to_rule }
    ensures local { result.global ≡ false }
{
    Arg::new(alloc, "to")
        .long("to")
        .value_name("N")
        .help("The last step that --trace writes")
        .value_parser(value_parser!(u64).range(1..=1_000_000_000_000))
        .default_value("1000000000000")
}

/// `--only NAME`
fn only_name_option<'a>(alloc: Global) -> Arg<'a>
    ensures rule { rule_of result ≡ only_name_rule }
    ensures local { result.global ≡ false }
{
    Arg::new(alloc, "only")
        .long("only")
        .value_name("NAME")
        .help("The procedure whose steps --trace writes")
}

/// `--ocode OCODE`
fn ocode_option<'a>(alloc: Global) -> Arg<'a>
    ensures rule { rule_of result ≡ ocode_rule }
    ensures local { result.global ≡ false }
{
    Arg::new(alloc, "ocode")
        .long("ocode")
        .value_name("OCODE")
        .help("The OCODE of FILE, which gives --trace the names of the procedures")
}

/// `--only PART`
fn only_option<'a>(alloc: Global) -> Arg<'a>
    ensures rule { rule_of result ≡ only_rule }
    ensures local { result.global ≡ false }
{
    Arg::new(alloc, "only")
        .long("only")
        .value_name("PART")
        .help("The part that is shown")
        .default_value("all")
}

/// FILE
fn file_argument<'a>(alloc: Global, help: &'a str) -> Arg<'a>
    ensures rule { rule_of result ≡ file_rule }
    ensures local { result.global ≡ false }
{
    Arg::new(alloc, "file")
        .required(true)
        .value_name("FILE")
        .help(help)
        .action(ArgAction::Set)
}

/// `compile`
fn compile_subcommand<'a>(alloc: Global) -> Command<'a>
    ensures { (app_of result ≡ compile_command) × ((fields_of result).has_globals ≡ false) }
{
    Command::new(alloc, "compile")
        .after_help(COMPILE_NOTES)
        .about("Compiles the BCPL source of the input, and writes its OCODE to the output.")
}

/// `generate`
fn generate_subcommand<'a>(alloc: Global) -> Command<'a>
    ensures { (app_of result ≡ generate_command) × ((fields_of result).has_globals ≡ false) }
{
    Command::new(alloc, "generate")
        .after_help(GENERATE_NOTES)
        .about("Generates INTCODE from the OCODE of the input, and writes it to the output.")
}

/// `run`
fn run_subcommand<'a>(alloc: Global) -> Result<Command<'a>, AllocError>
    ensures { IfOk result (λ command. (app_of command ≡ run_command) × ((fields_of command).has_globals ≡ false)) }
{
    Ok(
        Command::new(alloc, "run")
            .arg(store_option(alloc))?
            .arg(steps_option(alloc))?
            .arg(trace_flag(alloc))?
            .arg(from_option(alloc))?
            .arg(to_option(alloc))?
            .arg(only_name_option(alloc))?
            .arg(file_argument(alloc, "The BCPL source"))?
            .after_help(RUN_NOTES)
            .about("Runs the BCPL source in FILE. Input and output are those of the program."),
    )
}

/// `check`
fn check_subcommand<'a>(alloc: Global) -> Result<Command<'a>, AllocError>
    ensures { IfOk result (λ command. (app_of command ≡ check_command) × ((fields_of command).has_globals ≡ false)) }
{
    Ok(
        Command::new(alloc, "check")
            .arg(turns_option(alloc))?
            .arg(file_argument(alloc, "The BCPL source"))?
            .after_help(CHECK_NOTES)
            .about(
                "Does what the BCPL source in FILE means, step by step, and tells what goes wrong and where.",
            ),
    )
}

/// `show`
fn show_subcommand<'a>(alloc: Global) -> Result<Command<'a>, AllocError>
    ensures { IfOk result (λ command. (app_of command ≡ show_command) × ((fields_of command).has_globals ≡ false)) }
{
    Ok(
        Command::new(alloc, "show")
            .arg(only_option(alloc))?
            .arg(file_argument(alloc, "The BCPL source, or - for the input"))?
            .after_help(SHOW_NOTES)
            .about(
                "Writes the tokens, the tree, the names, the OCODE and the INTCODE of the BCPL source in FILE.",
            ),
    )
}

/// `interpret`
fn interpret_subcommand<'a>(alloc: Global) -> Result<Command<'a>, AllocError>
    ensures { IfOk result (λ command. (app_of command ≡ interpret_command) × ((fields_of command).has_globals ≡ false)) }
{
    Ok(
        Command::new(alloc, "interpret")
            .arg(store_option(alloc))?
            .arg(steps_option(alloc))?
            .arg(sizes_flag(alloc))?
            .arg(trace_flag(alloc))?
            .arg(ocode_option(alloc))?
            .arg(file_argument(alloc, "The INTCODE"))?
            .after_help(INTERPRET_NOTES)
            .about("Runs the INTCODE in FILE. Input and output are those of the program."),
    )
}

/// `bcpl`
fn kit<'a>(alloc: Global) -> Result<Command<'a>, AllocError>
    ensures { IfOk result (λ command. (app_of command ≡ kit_command) × ((fields_of command).has_globals ≡ false)) }
{
    Ok(
        Command::new(alloc, "bcpl")
            .subcommand(compile_subcommand(alloc))?
            .subcommand(generate_subcommand(alloc))?
            .subcommand(run_subcommand(alloc)?)?
            .subcommand(check_subcommand(alloc)?)?
            .subcommand(show_subcommand(alloc)?)?
            .subcommand(interpret_subcommand(alloc)?)?
            .version(VERSION)
            .bin_name("bcpl")?
            .after_help(KIT_NOTES)
            .about("Compiles BCPL to OCODE, generates INTCODE from OCODE, and runs INTCODE."),
    )
}

/// The limits that the words give.
fn limits_of(matches: &ArgMatches<'_>) -> Option<Limits>
    ensures reads { IfSome result (λ limits. ReadsLimits (rows_of (found_of matches.now)) limits) }
    ensures given { (limits : Bounds) → AreLimits limits → ReadsLimits (rows_of (found_of matches.now)) limits → IsSome result }
{
    let words = matches.get_one::<u32>("words")?;
    let steps = matches.get_one::<u64>("steps")?;
    Limits::new(steps, words)
}

/// The turns that the words give.
fn turns_of(matches: &ArgMatches<'_>) -> Option<u64>
    ensures reads { IfSome result (λ turns. ReadsNumber (one_of (codes "turns") (rows_of (found_of matches.now))) turns) }
    ensures given { (turns : ℕ) → turns ≤ STEPS_MOST → ReadsNumber (one_of (codes "turns") (rows_of (found_of matches.now))) turns → IsSome result }
{
    matches.get_one::<u64>("turns")
}

/// The name of FILE.
fn file_of<'a>(matches: &ArgMatches<'a>) -> Option<&'a str>
    ensures reads { IfSome result (λ file. first_of (codes "file") (rows_of (found_of matches.now)) ≡ Some file.now) }
    ensures given { (name : Text) → first_of (codes "file") (rows_of (found_of matches.now)) ≡ Some name → IsSome result }
{
    matches.get_str("file")
}

/// Whether the sizes are asked for.
fn sizes_asked(matches: &ArgMatches<'_>) -> Option<bool>
    ensures reads { IfSome result (λ asked. one_of (codes "sizes") (rows_of (found_of matches.now)) ≡ Some (truth_text asked)) }
    ensures given { (asked : Bool) → one_of (codes "sizes") (rows_of (found_of matches.now)) ≡ Some (truth_text asked) → IsSome result }
{
    matches.get_one::<bool>("sizes")
}

/// The part of this name.
fn part_named(name: &str) -> Option<Part>
    ensures named { IfSome result (λ part. name.now ≡ part_text part) }
    ensures given { (part : Part) → name.now ≡ part_text part → IsSome result }
{
    match name {
        "all" => Some(Part::All),
        "tokens" => Some(Part::Tokens),
        "tree" => Some(Part::Tree),
        "names" => Some(Part::Names),
        "ocode" => Some(Part::Ocode),
        "intcode" => Some(Part::Intcode),
        "map" => Some(Part::Map),
        "dot" => Some(Part::Dot),
        _ => None,
    }
}

/// The name of the part that is shown.
fn only_of<'a>(matches: &ArgMatches<'a>) -> Option<&'a str>
    ensures reads { IfSome result (λ name. first_of (codes "only") (rows_of (found_of matches.now)) ≡ Some name.now) }
    ensures given { (name : Text) → first_of (codes "only") (rows_of (found_of matches.now)) ≡ Some name → IsSome result }
{
    matches.get_str("only")
}

/// The part that is shown.
fn part_of(matches: &ArgMatches<'_>) -> Option<Part>
    ensures reads { IfSome result (λ part. first_of (codes "only") (rows_of (found_of matches.now)) ≡ Some (part_text part)) }
    ensures given { (part : Part) → first_of (codes "only") (rows_of (found_of matches.now)) ≡ Some (part_text part) → IsSome result }
{
    let name = only_of(matches)?;
    part_named(name)
}

/// Whether the steps are asked for.
fn trace_asked(matches: &ArgMatches<'_>) -> Option<bool>
    ensures reads { IfSome result (λ asked. one_of (codes "trace") (rows_of (found_of matches.now)) ≡ Some (truth_text asked)) }
    ensures given { (asked : Bool) → one_of (codes "trace") (rows_of (found_of matches.now)) ≡ Some (truth_text asked) → IsSome result }
{
    matches.get_one::<bool>("trace")
}

/// The number of the first step that is written.
fn from_of(matches: &ArgMatches<'_>) -> Option<u64>
    ensures reads { IfSome result (λ number. ReadsNumber (one_of (codes "from") (rows_of (found_of matches.now))) number) }
    ensures given { (number : ℕ) → number ≤ STEPS_MOST → ReadsNumber (one_of (codes "from") (rows_of (found_of matches.now))) number → IsSome result }
{
    matches.get_one::<u64>("from")
}

/// The number of the last.
fn to_of(matches: &ArgMatches<'_>) -> Option<u64>
    ensures reads { IfSome result (λ number. ReadsNumber (one_of (codes "to") (rows_of (found_of matches.now))) number) }
    ensures given { (number : ℕ) → number ≤ STEPS_MOST → ReadsNumber (one_of (codes "to") (rows_of (found_of matches.now))) number → IsSome result }
{
    matches.get_one::<u64>("to")
}

/// The name of the procedure whose steps are written.
fn only_name_of<'a>(matches: &ArgMatches<'a>) -> Option<&'a str>
    ensures { option_map (λ name. name.now) result ≡ first_of (codes "only") (rows_of (found_of matches.now)) }
{
    matches.get_str("only")
}

/// The name of the file of OCODE.
fn ocode_of<'a>(matches: &ArgMatches<'a>) -> Option<&'a str>
    ensures { option_map (λ name. name.now) result ≡ first_of (codes "ocode") (rows_of (found_of matches.now)) }
{
    matches.get_str("ocode")
}

/// A name of its own, if there is one.
fn owned(alloc: Global, name: Option<&str>) -> Result<Option<String>, AllocError>
    ensures { IfOk result (λ copy. option_map string_bytes copy ≡ option_map (λ text. text.now) name.entry) }
{
    match name {
        Some(name) => Ok(Some(String::from_str(alloc, name)?)),
        None => Ok(None),
    }
}

/// What the values of `run` ask for.
fn run_order(alloc: Global, matches: &ArgMatches<'_>) -> Result<Order, LineFault>
    ensures reads { IfOk result (Reads (Some (codes "run", rows_of (found_of matches.now)))) }
    ensures refuses { IfErr result (RefusesValues (Some (codes "run", rows_of (found_of matches.now)))) }
{
    let limits = limits_of(matches).ok_or(LineFault::Bad)?;
    let file = file_of(matches).ok_or(LineFault::Bad)?;
    let trace = trace_asked(matches).ok_or(LineFault::Bad)?;
    let file = String::from_str(alloc, file)?;
    if !trace {
        return Ok(Order::Run(limits, file));
    }
    let extent = Extent {
        from: from_of(matches).ok_or(LineFault::Bad)?,
        to: to_of(matches).ok_or(LineFault::Bad)?,
        only: owned(alloc, only_name_of(matches))?,
    };
    Ok(Order::TraceSource(limits, extent, file))
}

/// What the values of `check` ask for.
fn check_order(alloc: Global, matches: &ArgMatches<'_>) -> Result<Order, LineFault>
    ensures reads { IfOk result (Reads (Some (codes "check", rows_of (found_of matches.now)))) }
    ensures refuses { IfErr result (RefusesValues (Some (codes "check", rows_of (found_of matches.now)))) }
{
    let turns = turns_of(matches).ok_or(LineFault::Bad)?;
    let file = file_of(matches).ok_or(LineFault::Bad)?;
    Ok(Order::Check(turns, String::from_str(alloc, file)?))
}

/// What the values of `show` ask for.
fn show_order(alloc: Global, matches: &ArgMatches<'_>) -> Result<Order, LineFault>
    ensures reads { IfOk result (Reads (Some (codes "show", rows_of (found_of matches.now)))) }
    ensures refuses { IfErr result (RefusesValues (Some (codes "show", rows_of (found_of matches.now)))) }
{
    let part = part_of(matches).ok_or(LineFault::Bad)?;
    let file = file_of(matches).ok_or(LineFault::Bad)?;
    if file == "-" {
        Ok(Order::ShowInput(part))
    } else {
        Ok(Order::Show(part, String::from_str(alloc, file)?))
    }
}

/// What the values of `interpret` ask for.
fn interpret_order(alloc: Global, matches: &ArgMatches<'_>) -> Result<Order, LineFault>
    ensures reads { IfOk result (Reads (Some (codes "interpret", rows_of (found_of matches.now)))) }
    ensures refuses { IfErr result (RefusesValues (Some (codes "interpret", rows_of (found_of matches.now)))) }
{
    let limits = limits_of(matches).ok_or(LineFault::Bad)?;
    let file = file_of(matches).ok_or(LineFault::Bad)?;
    let sizes = sizes_asked(matches).ok_or(LineFault::Bad)?;
    if sizes {
        return Ok(Order::Sizes(limits.words(), String::from_str(alloc, file)?));
    }
    let trace = trace_asked(matches).ok_or(LineFault::Bad)?;
    let file = String::from_str(alloc, file)?;
    let ocode = ocode_of(matches);
    if trace {
        return Ok(Order::Trace(limits, file, owned(alloc, ocode)?));
    }
    if ocode.is_some() {
        return Err(LineFault::Bad);
    }
    Ok(Order::Interpret(limits, file))
}

/// What a subcommand and its values ask for.
fn order_of(alloc: Global, name: &str, matches: &ArgMatches<'_>) -> Result<Order, LineFault>
    ensures reads { IfOk result (Reads (Some (name.now, rows_of (found_of matches.now)))) }
    ensures refuses { IfErr result (RefusesValues (Some (name.now, rows_of (found_of matches.now)))) }
{
    if name == "compile" {
        return Ok(Order::Compile);
    }
    if name == "generate" {
        return Ok(Order::Generate);
    }
    if name == "run" {
        return run_order(alloc, matches);
    }
    if name == "check" {
        return check_order(alloc, matches);
    }
    if name == "show" {
        return show_order(alloc, matches);
    }
    if name == "interpret" {
        return interpret_order(alloc, matches);
    }
    Err(LineFault::Bad)
}

/// Why clap gives no values.
fn fault_of(error: clap::Error) -> LineFault
    ensures { IsFaultOf (kind_of error) result }
{
    match error.kind() {
        ErrorKind::OutOfMemory => LineFault::Memory,
        ErrorKind::DisplayHelp | ErrorKind::DisplayVersion => LineFault::Help(error),
        _ => LineFault::Bad,
    }
}

/// What the words of a command line ask for. The first word is the name of the program.
///
/// `Help` is returned where help or the version is asked for, `Bad` where the words are no command of the kit, a number
/// outside the limits included.
pub fn order<S: AsStr>(alloc: Global, words: &[S]) -> Result<Order, LineFault>
    // The values are those that the command of `kit_command` reads from the words.
    ensures reads { IfOk result (Reads (subcommand_of kit_command (map S.text words.now))) }
    // `Bad` comes for no words that it takes and that say an order.
    ensures refuses { IfErr result (Refuses (map S.text words.now)) }
{
    let matches = match kit(alloc)?.try_get_matches_from(words) {
        Ok(matches) => matches,
        Err(error) => return Err(fault_of(error)),
    };
    match matches.subcommand() {
        Some((name, values)) => order_of(alloc, name, values),
        None => Err(LineFault::Bad),
    }
}
