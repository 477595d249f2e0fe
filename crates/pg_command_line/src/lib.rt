//! The command line: the words that the program accepts, and what they ask for.
//!
//! `clap` refuses words that are no request, with its own text and the status 2. The names of files are kept as they were given, since reports begin with
//! them.
#![tactic(auto)]

use clap::{Arg, ArgAction, ArgMatches, Command, value_parser};
use std::alloc::{AllocError, Global};

/// The most steps that a probe may be allowed (ours).
const MOST_STEPS: i64 = 1_000_000_000;

/// The steps of a probe if none are given (ours).
const USUAL_STEPS: u64 = 1_000_000;

/// The version, and the toolchain that proved it.
pub const VERSION: &str = "0.8.3 (proved by rattle-kit-13f)";

/// The help of a word that names a file.
const GRAMMAR: &str = "The grammar file, or - for standard input";

const TEXT: &str = "The file with the text, in UTF-8, or - for standard input";

// The end of each command's help: its statuses, and an example that can be run at the top of the repository.

const HELP_OF_PROGRAM: &str =
    "Exit status: 0 yes (accepted, parsed, an ok answer), 1 no (findings, no tree, any other answer),
2 trouble (arguments or files that can't be used), 3 out of memory

The codes that lines begin with, such as C4, have pages: pgw help C4

Example: pgw parse examples/digit.g examples/digit.txt";

const HELP_OF_CHECK: &str =
    "Exit status: 0 accepted, 1 findings, 2 trouble (arguments or files that can't be used), 3 out of memory

Example: pgw check examples/color.g";

const HELP_OF_EXPLAIN: &str =
    "Exit status: 0 accepted, 1 findings, 2 trouble (arguments or files that can't be used, no such rule or node), 3 out of memory

Example: pgw explain examples/lost-alternative.g";

const HELP_OF_VERIFY: &str =
    "Exit status: 0 accepted, 1 the certificate doesn't show that, 2 trouble (arguments or files that can't be used), 3 out of memory

Example: pgw verify examples/digit.g examples/digit.certificate";

const HELP_OF_PARSE: &str =
    "Exit status: 0 parsed, 1 findings or a parse error, 2 trouble (arguments or files that can't be used), 3 out of memory

Example: pgw parse examples/time.g examples/time.txt";

const HELP_OF_PROBE: &str =
    "Exit status: 0 an ok answer, 1 any other answer, 2 trouble (arguments or files that can't be used), 3 out of memory

Example: pgw probe --steps 1000 examples/lost-alternative.g examples/lost-alternative.txt";

const HELP_OF_REPLAY: &str =
    "Exit status: 0 the trail leads to a forest, 1 it doesn't, 2 trouble (arguments or files that can't be used), 3 out of memory

Example: pgw replay examples/digit.g examples/digit.txt examples/digit.trail";

const HELP_OF_PRINT: &str =
    "Exit status: 0 printed, 2 trouble (arguments or files that can't be used), 3 out of memory

Example: pgw print examples/color.g";

const HELP_OF_SETS: &str =
    "Exit status: 0 printed, 2 trouble (arguments or files that can't be used), 3 out of memory

Example: pgw sets examples/color.g";

const HELP_OF_HASKELL: &str =
    "Exit status: 0 printed, 2 trouble (arguments or files that can't be used), 3 out of memory

Example: pgw haskell --module Color examples/color.g";

const HELP_OF_TEST: &str =
    "Exit status: 0 every case passed, 1 findings or a case that failed, 2 trouble (arguments or files that can't be used), 3 out of memory

Example: pgw test examples/call.g examples/call.corpus";

const HELP_OF_LSP: &str =
    "Exit status: 0 ended by shutdown and exit, 1 exit without shutdown or the end of input without exit,
2 bytes that are no message, or output that can't be written, 3 out of memory

Example: pgw lsp < examples/session.lsp";

/// The name of a Haskell module if none is given (ours).
const USUAL_MODULE: &str = "Grammar";

/// How findings are printed.
#[derive(Clone, Copy)]
pub enum Findings {
    /// A line each.
    Lines,
    /// A line each, after its place in the file.
    Places,
    /// A line of JSON each.
    Json,
}

/// How an accepted grammar is told.
#[derive(Clone, Copy)]
pub enum Accepted {
    /// By one word.
    Word,
    /// By that word, and the grammar's step cost.
    WordAndCost,
    /// By its certificate.
    Certificate,
}

/// How a parse is printed.
#[derive(Clone, Copy)]
pub enum Parsed {
    /// The forest as a line of JSON.
    Forest,
    /// A line of JSON with the text's name and the forest, or why there is none.
    Line,
    /// The forest as a line of JSON, and the trail of the derivation as another.
    ForestAndTrail,
    /// The forest as an outline for people to read.
    Outline,
    /// The forest with the places of its trees as a line of JSON.
    Places,
}

/// Whether the steps of a parse are printed, with the most that there can be.
#[derive(Clone, Copy)]
pub enum Steps {
    /// They aren't.
    Hidden,
    /// On a line.
    Shown,
    /// On a line that begins with the text's name, as there are several.
    Named,
}

/// What is printed of a text that is parsed.
#[derive(Clone, Copy)]
pub struct Parsing {
    pub parsed: Parsed,
    pub steps: Steps,
}

/// What is printed of tried cases.
#[derive(Clone, Copy)]
pub enum Tested {
    /// Lines for those that failed, and the sum.
    Failed,
    /// Lines for all, and the sum.
    All,
    /// A line of JSON for each.
    Json,
    /// The corpus, with what came in the place of what was wanted.
    Updated,
}

/// How cases are tried.
#[derive(Clone, Copy)]
pub struct Testing<'a> {
    /// What is printed of them.
    pub tested: Tested,
    /// What the names of those that are tried contain.
    pub only: &'a str,
    /// Whether texts are probed, and not parsed.
    pub probes: bool,
    /// Whether it is told what no case takes of the grammar.
    pub covers: bool,
}

/// A request. The names of files are relative to the caller's folder; `-` is standard input.
#[derive(Clone, Copy)]
pub enum Request<'m, 'a> {
    /// Say of each grammar whether it is accepted, or print its findings. An accepted grammar's step cost or certificate is printed if that is wanted, and so
    /// are the notes on it, in JSON.
    Check {
        grammars: &'m [&'a str],
        accepted: Accepted,
        findings: Findings,
        notes: bool,
    },
    /// Explain what is wrong with the grammar, for people: at a rule or one of its nodes, given as `RULE` or `RULE:NODE`, or everywhere if this is empty.
    Explain {
        grammar: &'a str,
        asked: &'a str,
    },
    /// Say whether the certificate shows that the grammar is accepted, or why it doesn't.
    Verify {
        grammar: &'a str,
        certificate: &'a str,
    },
    /// Parse each text with the grammar.
    Parse {
        grammar: &'a str,
        texts: &'m [&'a str],
        parsing: Parsing,
    },
    /// Run the start rule on the text, in at most this many steps and in the report's reading of choice or the library's, and print its answer. If a trace is
    /// wanted, print the run before that, rule by rule, or only one rule if it is named.
    Probe {
        grammar: &'a str,
        text: &'a str,
        max_steps: u64,
        report: bool,
        trace: bool,
        only: &'a str,
    },
    /// Replay the trail over the text, without a search, and print the forest.
    Replay {
        grammar: &'a str,
        text: &'a str,
        trail: &'a str,
    },
    /// Try the cases of each corpus by the grammar.
    Test {
        grammar: &'a str,
        corpora: &'m [&'a str],
        testing: Testing<'a>,
    },
    /// Print the grammar in canonical form.
    Print {
        grammar: &'a str,
    },
    /// Print the sets of the grammar.
    Sets {
        grammar: &'a str,
    },
    /// Print the grammar as a Haskell module with this name, which may be none.
    Haskell {
        grammar: &'a str,
        module: &'a str,
    },
    /// Serve an editor over standard input and output.
    Lsp,
}

/// The program's command line. Its texts call the program `pgw`, whatever its file is called. Fails where memory runs out.
pub fn command<'a>(alloc: Global) -> Result<Command<'a>, AllocError> {
    let program = with_reading_commands(alloc, program(alloc));
    with_printing_commands(alloc, program)
}

/// The command line without its commands.
fn program<'a>(alloc: Global) -> Result<Command<'a>, AllocError> {
    let command = Command::new(alloc, "pgw")
        .bin_name("pgw")?
        .version(VERSION)
        .about("Checks grammars of parser combinators, and runs them on texts")
        .subcommand_required(true)
        .arg_required_else_help(true)
        .after_help(HELP_OF_PROGRAM);
    Ok(command)
}

/// Adds the commands that say yes or no about a grammar or a text.
fn with_reading_commands<'a>(
    alloc: Global,
    program: Result<Command<'a>, AllocError>,
) -> Result<Command<'a>, AllocError> {
    let program = with_command(program, check_command(alloc));
    let program = with_command(program, explain_command(alloc));
    let program = with_command(program, verify_command(alloc));
    let program = with_command(program, parse_command(alloc));
    let program = with_command(program, probe_command(alloc));
    let program = with_command(program, replay_command(alloc));
    with_command(program, test_command(alloc))
}

/// Adds the commands that print a grammar.
fn with_printing_commands<'a>(
    alloc: Global,
    program: Result<Command<'a>, AllocError>,
) -> Result<Command<'a>, AllocError> {
    let program = with_command(program, print_command(alloc));
    let program = with_command(program, sets_command(alloc));
    let program = with_command(program, haskell_command(alloc));
    with_command(program, lsp_command(alloc))
}

/// Adds a command, if there was memory for both. The calls that add commands can't fail, which keeps the proofs there short.
fn with_command<'a>(
    program: Result<Command<'a>, AllocError>,
    command: Result<Command<'a>, AllocError>,
) -> Result<Command<'a>, AllocError> {
    program?.subcommand(command?)
}

/// Adds a word, if there was memory for what was added before. The calls that add words can't fail, which keeps the proofs there short.
fn with_arg<'a>(
    command: Result<Command<'a>, AllocError>,
    arg: Arg<'a>,
) -> Result<Command<'a>, AllocError> {
    command?.arg(arg)
}

/// A command without words.
fn bare<'a>(alloc: Global, name: &'a str, about: &'a str, help: &'a str) -> Command<'a> {
    Command::new(alloc, name).about(about).after_help(help)
}

fn check_command<'a>(alloc: Global) -> Result<Command<'a>, AllocError> {
    let json = json(alloc)?;
    let notes = notes(alloc)?;
    let cost = cost(alloc)?;
    let about = "Checks grammars: prints `accepted`, or a line for each finding";
    let command = bare(alloc, "check", about, HELP_OF_CHECK).arg(certificate(alloc));
    let command = with_arg(command, cost);
    let command = with_arg(command, places(alloc));
    let command = with_arg(command, json);
    let command = with_arg(command, notes);
    let command = with_arg(command, quiet(alloc));
    with_arg(command, files(alloc, "grammar", GRAMMAR))
}

fn explain_command<'a>(alloc: Global) -> Result<Command<'a>, AllocError> {
    let about =
        "Explains why a grammar is refused: what meets, through which rules, and at which character";
    let command = bare(alloc, "explain", about, HELP_OF_EXPLAIN).arg(file(
        alloc, "grammar", GRAMMAR,
    ));
    with_arg(command, nodes(alloc))
}

fn verify_command<'a>(alloc: Global) -> Result<Command<'a>, AllocError> {
    let about = "Checks a certificate that a grammar is accepted, whoever made it";
    let certificate = "The file with the certificate, as JSON, or - for standard input";
    let command = bare(alloc, "verify", about, HELP_OF_VERIFY).arg(quiet(alloc));
    let command = with_arg(command, file(alloc, "grammar", GRAMMAR));
    with_arg(command, file(alloc, "certificate", certificate))
}

fn parse_command<'a>(alloc: Global) -> Result<Command<'a>, AllocError> {
    let tree = tree(alloc)?;
    let places = places_of_trees(alloc)?;
    let lines = lines(alloc)?;
    let about = "Parses texts with a grammar and prints the trees as JSON, one line per text";
    let command = bare(alloc, "parse", about, HELP_OF_PARSE).arg(trail(alloc));
    let command = with_arg(command, tree);
    let command = with_arg(command, places);
    let command = with_arg(command, lines);
    let command = with_arg(command, counted(alloc));
    let command = with_arg(command, quiet(alloc));
    let command = with_arg(command, file(alloc, "grammar", GRAMMAR));
    with_arg(command, files(alloc, "text", TEXT))
}

fn probe_command<'a>(alloc: Global) -> Result<Command<'a>, AllocError> {
    let only = only(alloc)?;
    let about = "Runs a grammar's start rule on a text as Parsec would, and prints its answer";
    let command = bare(alloc, "probe", about, HELP_OF_PROBE).arg(bound(alloc));
    let command = with_arg(command, report(alloc));
    let command = with_arg(command, trace(alloc));
    let command = with_arg(command, only);
    let command = with_arg(command, quiet(alloc));
    with_grammar_and_text(alloc, command)
}

fn replay_command<'a>(alloc: Global) -> Result<Command<'a>, AllocError> {
    let about =
        "Replays a trail that `parse --trail` printed, without searching, and prints the trees";
    let trail = "The file with the trail, as JSON, or - for standard input";
    let command = bare(alloc, "replay", about, HELP_OF_REPLAY).arg(quiet(alloc));
    let command = with_grammar_and_text(alloc, command);
    with_arg(command, file(alloc, "trail", trail))
}

fn test_command<'a>(alloc: Global) -> Result<Command<'a>, AllocError> {
    let lists = lists_all(alloc)?;
    let json = json_of_cases(alloc)?;
    let coverage = coverage(alloc)?;
    let about = "Tries the cases of corpora: texts, and what is to come of them";
    let corpus = "The file with cases, in UTF-8, or - for standard input";
    let command = bare(alloc, "test", about, HELP_OF_TEST).arg(named(alloc));
    let command = with_arg(command, lists);
    let command = with_arg(command, json);
    let command = with_arg(command, update(alloc));
    let command = with_arg(command, probes(alloc));
    let command = with_arg(command, coverage);
    let command = with_arg(command, quiet(alloc));
    let command = with_arg(command, file(alloc, "grammar", GRAMMAR));
    with_arg(command, files(alloc, "corpus", corpus))
}

/// Adds the words that name the grammar file and the file with the text.
fn with_grammar_and_text<'a>(
    alloc: Global,
    command: Result<Command<'a>, AllocError>,
) -> Result<Command<'a>, AllocError> {
    let command = with_arg(command, file(alloc, "grammar", GRAMMAR));
    with_arg(command, file(alloc, "text", TEXT))
}

/// The word that asks for the places of findings.
fn places<'a>(alloc: Global) -> Arg<'a> {
    Arg::new(alloc, "places")
        .long("places")
        .action(ArgAction::SetTrue)
        .help("Puts FILE:LINE:COLUMN: in front of each finding, for editors")
}

/// The word that asks for findings as JSON.
fn json<'a>(alloc: Global) -> Result<Arg<'a>, AllocError> {
    Arg::new(alloc, "json")
        .long("json")
        .action(ArgAction::SetTrue)
        .help("Prints findings and faults as JSON, one per line, for editors and scripts")
        .conflicts_with("places")?
        .conflicts_with("certificate")
}

/// The word that asks for notes.
fn notes<'a>(alloc: Global) -> Result<Arg<'a>, AllocError> {
    Arg::new(alloc, "notes")
        .long("notes")
        .action(ArgAction::SetTrue)
        .help("With --json, also prints the notes on an accepted grammar")
        .requires_arg("json")
}

/// The word that asks for silence.
fn quiet<'a>(alloc: Global) -> Arg<'a> {
    Arg::new(alloc, "quiet")
        .short('q')
        .long("quiet")
        .action(ArgAction::SetTrue)
        .help("Prints only what can't be used: the exit status has the answer")
}

/// The word that asks for the certificate.
fn certificate<'a>(alloc: Global) -> Arg<'a> {
    Arg::new(alloc, "certificate")
        .long("certificate")
        .action(ArgAction::SetTrue)
        .help("Prints the certificate of an accepted grammar, as JSON")
}

/// The word that asks for the step cost.
fn cost<'a>(alloc: Global) -> Result<Arg<'a>, AllocError> {
    Arg::new(alloc, "cost")
        .long("cost")
        .action(ArgAction::SetTrue)
        .help("Prints, with `accepted`, the most steps that a parse takes for each character")
        .conflicts_with("certificate")?
        .conflicts_with("json")
}

/// The word that asks for a rule or a node.
fn nodes<'a>(alloc: Global) -> Arg<'a> {
    Arg::new(alloc, "nodes")
        .value_name("RULE[:NODE]")
        .action(ArgAction::Set)
        .help("The rule, or the node of a rule, to explain")
}

/// The word that asks for the trail.
fn trail<'a>(alloc: Global) -> Arg<'a> {
    Arg::new(alloc, "trail")
        .long("trail")
        .action(ArgAction::SetTrue)
        .help("Also prints the derivation's trail on a second line, for replay")
}

/// The word that asks for the outline.
fn tree<'a>(alloc: Global) -> Result<Arg<'a>, AllocError> {
    Arg::new(alloc, "tree")
        .long("tree")
        .action(ArgAction::SetTrue)
        .help("Prints the trees for people, one line per node, with its line and column")
        .conflicts_with("trail")
}

/// The word that asks for the places of the trees.
fn places_of_trees<'a>(alloc: Global) -> Result<Arg<'a>, AllocError> {
    Arg::new(alloc, "places")
        .long("places")
        .action(ArgAction::SetTrue)
        .help("Prints the trees with what each node and leaf read: start, end, line and column")
        .conflicts_with("trail")?
        .conflicts_with("tree")
}

/// The word that asks for a line for each text, parsed or not.
fn lines<'a>(alloc: Global) -> Result<Arg<'a>, AllocError> {
    Arg::new(alloc, "lines")
        .long("lines")
        .action(ArgAction::SetTrue)
        .help("Prints a line of JSON for each text, with its trees or why it has none")
        .conflicts_with("trail")?
        .conflicts_with("tree")?
        .conflicts_with("places")
}

/// The word that asks for the steps.
fn counted<'a>(alloc: Global) -> Arg<'a> {
    Arg::new(alloc, "steps")
        .long("steps")
        .action(ArgAction::SetTrue)
        .help(
            "Also prints, on standard error, the steps of each parse and the most that there can be",
        )
}

/// The word that bounds the steps.
fn bound<'a>(alloc: Global) -> Arg<'a> {
    Arg::new(alloc, "steps")
        .long("steps")
        .value_name("N")
        .value_parser(value_parser!(u64).range(1..=MOST_STEPS))
        .action(ArgAction::Set)
        .help("The most steps, from 1 to 1000000000; 1000000 by default")
}

/// The word that picks the report's reading.
fn report<'a>(alloc: Global) -> Arg<'a> {
    Arg::new(alloc, "report")
        .long("report")
        .action(ArgAction::SetTrue)
        .help("Uses the choice of the 2001 report instead of the library's")
}

/// The word that asks for the trace.
fn trace<'a>(alloc: Global) -> Arg<'a> {
    Arg::new(alloc, "trace")
        .long("trace")
        .action(ArgAction::SetTrue)
        .help("Traces on standard error which rules are entered and left, and what is lost")
}

/// The word that names the rule that is traced.
fn only<'a>(alloc: Global) -> Result<Arg<'a>, AllocError> {
    Arg::new(alloc, "only")
        .long("only")
        .value_name("RULE")
        .action(ArgAction::Set)
        .help("Traces only this rule")
        .requires_arg("trace")
}

/// The word that picks cases.
fn named<'a>(alloc: Global) -> Arg<'a> {
    Arg::new(alloc, "only")
        .long("only")
        .value_name("NAME")
        .action(ArgAction::Set)
        .help("Tries only cases whose name contains this")
}

/// The word that asks for all cases.
fn lists_all<'a>(alloc: Global) -> Result<Arg<'a>, AllocError> {
    Arg::new(alloc, "verbose")
        .short('v')
        .long("verbose")
        .action(ArgAction::SetTrue)
        .help("Lists the cases that pass, too")
        .conflicts_with("json")?
        .conflicts_with("update")
}

/// The word that asks for cases as JSON.
fn json_of_cases<'a>(alloc: Global) -> Result<Arg<'a>, AllocError> {
    Arg::new(alloc, "json")
        .long("json")
        .action(ArgAction::SetTrue)
        .help("Prints a line of JSON for each case, for scripts")
        .conflicts_with("update")
}

/// The word that asks for the corpus with what came.
fn update<'a>(alloc: Global) -> Arg<'a> {
    Arg::new(alloc, "update")
        .long("update")
        .action(ArgAction::SetTrue)
        .help("Prints the corpus, with what came in the place of what was wanted")
}

/// The word that asks for what no case takes.
fn coverage<'a>(alloc: Global) -> Result<Arg<'a>, AllocError> {
    Arg::new(alloc, "coverage")
        .long("coverage")
        .action(ArgAction::SetTrue)
        .help("Also prints what of the grammar no case that passes tries")
        .conflicts_with("json")?
        .conflicts_with("update")?
        .conflicts_with("probe")
}

/// The word that asks for probes.
fn probes<'a>(alloc: Global) -> Arg<'a> {
    Arg::new(alloc, "probe")
        .long("probe")
        .action(ArgAction::SetTrue)
        .help("Probes the texts, as `probe` does, by any grammar")
}

fn print_command<'a>(alloc: Global) -> Result<Command<'a>, AllocError> {
    let about = "Prints a grammar file in canonical form";
    bare(alloc, "print", about, HELP_OF_PRINT).arg(file(alloc, "grammar", GRAMMAR))
}

fn sets_command<'a>(alloc: Global) -> Result<Command<'a>, AllocError> {
    let about = "Prints what can begin and what can follow each form of a grammar";
    bare(alloc, "sets", about, HELP_OF_SETS).arg(file(alloc, "grammar", GRAMMAR))
}

fn haskell_command<'a>(alloc: Global) -> Result<Command<'a>, AllocError> {
    let about = "Prints a grammar as a Haskell module over Text.Parsec";
    let command = bare(alloc, "haskell", about, HELP_OF_HASKELL).arg(module(alloc));
    with_arg(command, file(alloc, "grammar", GRAMMAR))
}

/// Its result is what it says to the editor, so it can't be quiet.
fn lsp_command<'a>(alloc: Global) -> Result<Command<'a>, AllocError> {
    let about = "Serves an editor, by the Language Server Protocol over standard input and output";
    Ok(bare(alloc, "lsp", about, HELP_OF_LSP))
}

/// The word that names a module.
fn module<'a>(alloc: Global) -> Arg<'a> {
    Arg::new(alloc, "module")
        .long("module")
        .value_name("NAME")
        .action(ArgAction::Set)
        .help("The module's name; Grammar by default")
}

/// A word that names a file and is required.
fn file<'a>(alloc: Global, id: &'a str, help: &'a str) -> Arg<'a> {
    Arg::new(alloc, id)
        .required(true)
        .action(ArgAction::Set)
        .help(help)
}

/// Words that name files, of which at least one is required.
fn files<'a>(alloc: Global, id: &'a str, help: &'a str) -> Arg<'a> {
    file(alloc, id, help).num_args(1..)
}

/// Whether nothing is printed except why something can't be used.
pub fn is_quiet(matches: &ArgMatches) -> bool {
    match matches.subcommand() {
        Some((_, found)) => found.get_flag("quiet"),
        None => false,
    }
}

/// The request of a command line that `command` has accepted.
pub fn request_of<'m, 'a>(matches: &'m ArgMatches<'a>) -> Option<Request<'m, 'a>> {
    let (name, found) = matches.subcommand()?;
    match name {
        "check" => check_request(found),
        "explain" => explain_request(found),
        "verify" => verify_request(found),
        "parse" => parse_request(found),
        "probe" => probe_request(found),
        "replay" => replay_request(found),
        "test" => test_request(found),
        "print" => print_request(found),
        "sets" => sets_request(found),
        "haskell" => haskell_request(found),
        "lsp" => Some(Request::Lsp),
        _ => None,
    }
}

fn check_request<'m, 'a>(found: &'m ArgMatches<'a>) -> Option<Request<'m, 'a>> {
    let findings = if found.get_flag("json") {
        Findings::Json
    } else if found.get_flag("places") {
        Findings::Places
    } else {
        Findings::Lines
    };
    let accepted = if found.get_flag("certificate") {
        Accepted::Certificate
    } else if found.get_flag("cost") {
        Accepted::WordAndCost
    } else {
        Accepted::Word
    };
    Some(Request::Check {
        grammars: found.get_strs("grammar")?,
        accepted,
        findings,
        notes: found.get_flag("notes"),
    })
}

fn explain_request<'m, 'a>(found: &'m ArgMatches<'a>) -> Option<Request<'m, 'a>> {
    Some(Request::Explain {
        grammar: found.get_str("grammar")?,
        asked: found.get_str("nodes").unwrap_or(""),
    })
}

fn verify_request<'m, 'a>(found: &'m ArgMatches<'a>) -> Option<Request<'m, 'a>> {
    Some(Request::Verify {
        grammar: found.get_str("grammar")?,
        certificate: found.get_str("certificate")?,
    })
}

fn parse_request<'m, 'a>(found: &'m ArgMatches<'a>) -> Option<Request<'m, 'a>> {
    let parsed = if found.get_flag("lines") {
        Parsed::Line
    } else if found.get_flag("tree") {
        Parsed::Outline
    } else if found.get_flag("places") {
        Parsed::Places
    } else if found.get_flag("trail") {
        Parsed::ForestAndTrail
    } else {
        Parsed::Forest
    };
    let texts = found.get_strs("text")?;
    let steps = if !found.get_flag("steps") {
        Steps::Hidden
    } else if texts.len() > 1 {
        Steps::Named
    } else {
        Steps::Shown
    };
    Some(Request::Parse {
        grammar: found.get_str("grammar")?,
        texts,
        parsing: Parsing { parsed, steps },
    })
}

fn probe_request<'m, 'a>(found: &'m ArgMatches<'a>) -> Option<Request<'m, 'a>> {
    Some(Request::Probe {
        grammar: found.get_str("grammar")?,
        text: found.get_str("text")?,
        max_steps: found.get_one("steps").unwrap_or(USUAL_STEPS),
        report: found.get_flag("report"),
        trace: found.get_flag("trace"),
        only: found.get_str("only").unwrap_or(""),
    })
}

fn replay_request<'m, 'a>(found: &'m ArgMatches<'a>) -> Option<Request<'m, 'a>> {
    Some(Request::Replay {
        grammar: found.get_str("grammar")?,
        text: found.get_str("text")?,
        trail: found.get_str("trail")?,
    })
}

fn test_request<'m, 'a>(found: &'m ArgMatches<'a>) -> Option<Request<'m, 'a>> {
    let tested = if found.get_flag("update") {
        Tested::Updated
    } else if found.get_flag("json") {
        Tested::Json
    } else if found.get_flag("verbose") {
        Tested::All
    } else {
        Tested::Failed
    };
    Some(Request::Test {
        grammar: found.get_str("grammar")?,
        corpora: found.get_strs("corpus")?,
        testing: Testing {
            tested,
            only: found.get_str("only").unwrap_or(""),
            probes: found.get_flag("probe"),
            covers: found.get_flag("coverage"),
        },
    })
}

fn print_request<'m, 'a>(found: &'m ArgMatches<'a>) -> Option<Request<'m, 'a>> {
    Some(Request::Print {
        grammar: found.get_str("grammar")?,
    })
}

fn sets_request<'m, 'a>(found: &'m ArgMatches<'a>) -> Option<Request<'m, 'a>> {
    Some(Request::Sets {
        grammar: found.get_str("grammar")?,
    })
}

fn haskell_request<'m, 'a>(found: &'m ArgMatches<'a>) -> Option<Request<'m, 'a>> {
    Some(Request::Haskell {
        grammar: found.get_str("grammar")?,
        module: found.get_str("module").unwrap_or(USUAL_MODULE),
    })
}
