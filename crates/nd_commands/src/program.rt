//! `status`: runs what the command line asks for, and gives the exit status of the program.

ghost use Rattle.std.specs.Prelude.{IfOk, ◌≤◌, length};
ghost use Rattle.std.specs.Process.{exit_status};
ghost use Rattle.nd_input.specs.Sources.{source_of};
ghost use Rattle.nd_commands.specs.Input.{IsNpy};

use crate::runner::run;
use clap::error::ErrorKind;
use clap::{Arg, ArgAction, ArgMatches, Command, Error};
use nd_notebook::{EditFault, Input, Meter, Notebook};
use nd_script::lines::{CountedRead, CountedWrite, RunFault, ScriptReader, ScriptWriter};
use std::alloc::{AllocError, AllocFailed, Global};
use std::io::Read;
use std::process::ExitCode;
use std::{env, fs, io};

/// The script ended.
const ENDED: u8 = 0;

/// The script was not run to its end.
const STOPPED: u8 = 1;

/// The command line is refused.
const REFUSED: u8 = 2;

/// The file of an input could not be read, or the notebook refused it.
const NO_INPUT: u8 = 3;

/// The name by which the program speaks of itself.
const NAME: &str = "ndnote";

/// What the program is, as its help says it.
const ABOUT: &str = "runs a script of a reactive notebook for integer and Boolean arrays";

/// The languages of a program's scripts: that of [`run`], and one with words for front ends, where the program has it.
pub trait Scripting {
    /// Returns whether the command line has `--desk`, by which a script has words for front ends, and with it `--progress`, by which each
    /// run of a cell is told of.
    fn has_desk() -> bool;

    /// Runs the script of a reader over a notebook, and writes its answers. It has words for front ends where `is_desk`.
    fn run_script<R: CountedRead, W: CountedWrite>(
        rt: &HostRuntime,
        is_desk: bool,
        reader: &mut R,
        writer: &mut W,
        meter: &mut Meter,
        notebook: &mut Notebook,
    ) -> Result<(), RunFault>;
}

/// The commands of [`run`] alone.
struct Plain;

impl Scripting for Plain {
    fn has_desk() -> bool {
        false
    }

    fn run_script<R: CountedRead, W: CountedWrite>(
        rt: &HostRuntime,
        _is_desk: bool,
        reader: &mut R,
        writer: &mut W,
        meter: &mut Meter,
        notebook: &mut Notebook,
    ) -> Result<(), RunFault> {
        run(rt.alloc(), reader, writer, meter, notebook)
    }
}

/// How much of the file of an input is read: a byte more than an input may take.
const MOST_READ: u64 = 67_108_865;

/// An input: its name, and the path of its file.
#[derive(Clone, Copy, Debug)]
struct InputFile<'a> {
    name: &'a str,
    path: &'a str,
}

/// Why the program did not run a script to its end.
#[derive(Debug, Drop, thiserror::Error)]
enum ProgramFault<'a> {
    /// An argument is not UTF-8.
    #[error("the arguments are not text")]
    NotText,
    /// The arguments are not those of the program.
    #[error("{0}")]
    Refused(Error),
    /// A word is neither an option nor an input.
    #[error("{0}: an input is given as NAME=PATH")]
    NoInputWord(&'a str),
    /// The file of an input cannot be read.
    #[error("input {name}: {path}: {1}", name = .0.name, path = .0.path)]
    UnreadInput(InputFile<'a>, io::Error),
    /// The notebook refused an input.
    #[error("input {name}: {path}: {why}", name = .0.name, path = .0.path, why = refusal_text(.1))]
    RefusedInput(InputFile<'a>, EditFault),
    /// The file of the script cannot be opened.
    #[error("script {0}: {1}")]
    UnopenedScript(&'a str, io::Error),
    /// The script of a file was not run to its end.
    #[error("script {0}: {1}")]
    StoppedScript(&'a str, RunFault),
    /// The script of standard input was not run to its end.
    #[error("{0}")]
    Stopped(RunFault),
    /// The library was refused memory before a script began.
    #[error("out of memory")]
    MemoryWanted,
}

/// Why a notebook refuses an input, in words. No input meets the other refusals of edits.
fn refusal_text(fault: &EditFault) -> &'static str {
    match fault {
        EditFault::BadInputName => "a name has 1 to 64 digits, letters, '-', '.' or '_'",
        EditFault::InputTooLarge => "larger than 67108864 bytes",
        EditFault::Memory(_) => "out of memory",
        _ => "refused",
    }
}

impl<'a, T: Drop> From<AllocFailed<T>> for ProgramFault<'a> {
    fn from(_failed: AllocFailed<T>) -> ProgramFault<'a> {
        ProgramFault::MemoryWanted
    }
}

impl<'a> ProgramFault<'a> {
    /// Want of memory is no fault of the command line.
    fn status(&self) -> u8
        ensures { result ≤ 3 }
    {
        match self {
            ProgramFault::NotText | ProgramFault::Refused(_) | ProgramFault::NoInputWord(_) => {
                REFUSED
            }
            ProgramFault::UnreadInput(_, _) | ProgramFault::RefusedInput(_, _) => NO_INPUT,
            ProgramFault::UnopenedScript(_, _)
            | ProgramFault::StoppedScript(_, _)
            | ProgramFault::Stopped(_)
            | ProgramFault::MemoryWanted => STOPPED,
        }
    }

    fn of_arguments(error: &io::Error) -> ProgramFault<'a> {
        match error.kind() {
            io::ErrorKind::OutOfMemory => ProgramFault::MemoryWanted,
            _ => ProgramFault::NotText,
        }
    }

    fn of_command_line(error: Error) -> ProgramFault<'a> {
        match error.kind() {
            ErrorKind::OutOfMemory => ProgramFault::MemoryWanted,
            _ => ProgramFault::Refused(error),
        }
    }
}

/// The words of the command line.
fn words_of(rt: &HostRuntime) -> io::Result<Vec<String>> {
    let words = env::args(rt)?.collect::<Vec<String>>(rt.alloc())?;
    Ok(words)
}

/// What a command line asks for.
#[derive(Drop)]
struct Request<'a> {
    /// The path of the script, if one is given.
    script: Option<&'a str>,
    /// The inputs in order.
    inputs: Vec<InputFile<'a>>,
    /// Whether the script has words for front ends.
    is_desk: bool,
    /// Whether each run of a cell is told of.
    has_progress: bool,
}

/// The inputs that these words name, each as `NAME=PATH`.
fn inputs_of<'a>(alloc: Global, words: &[&'a str]) -> Result<Vec<InputFile<'a>>, ProgramFault<'a>> {
    let mut inputs = Vec::new(alloc);
    for word in words {
        let Some((name, path)) = word.split_once('=') else {
            return Err(ProgramFault::NoInputWord(word));
        };
        inputs.push(InputFile { name, path })?;
    }
    Ok(inputs)
}

/// A command with the options `--desk` and `--progress`, where the program has them.
fn with_desk<'a>(
    alloc: Global,
    command: Command<'a>,
    has_desk: bool,
) -> Result<Command<'a>, AllocError> {
    if !has_desk {
        return Ok(command);
    }
    let desk = Arg::new(alloc, "desk")
        .long("desk")
        .help("The script has words for front ends")
        .action(ArgAction::SetTrue);
    let progress = Arg::new(alloc, "progress")
        .long("progress")
        .help("Tells of each run of a cell on standard error; with --desk")
        .action(ArgAction::SetTrue)
        .requires_arg("desk")?;
    command.arg(desk)?.arg(progress)
}

/// The words of the command line as its arguments. Whatever they do not take is refused.
fn matches_of<'a>(
    alloc: Global,
    has_desk: bool,
    words: &'a [String],
) -> Result<ArgMatches<'a>, Error> {
    let script = Arg::new(alloc, "script")
        .long("script")
        .value_name("PATH")
        .help("The script; else that of standard input")
        .action(ArgAction::Set);
    let inputs = Arg::new(alloc, "input")
        .value_name("NAME=PATH")
        .help("An input and its NPY file")
        .action(ArgAction::Append);
    let command = Command::new(alloc, NAME)
        .about(ABOUT)
        .arg(script)?
        .arg(inputs)?;
    let command = with_desk(alloc, command, has_desk)?;
    command.try_get_matches_from(words)
}

/// What the words of the command line ask for.
fn request_of<'a>(
    alloc: Global,
    has_desk: bool,
    words: &'a [String],
) -> Result<Request<'a>, ProgramFault<'a>> {
    let matches = match matches_of(alloc, has_desk, words) {
        Ok(matches) => matches,
        Err(error) => return Err(ProgramFault::of_command_line(error)),
    };
    let inputs = inputs_of(alloc, matches.get_strs("input").unwrap_or(&[]))?;
    Ok(Request {
        script: matches.get_str("script"),
        inputs,
        is_desk: matches.get_flag("desk"),
        has_progress: matches.get_flag("progress"),
    })
}

/// Returns the bytes of a file, of a large one as many as are more than an input may take. The buffer
/// is made for the file's length; where none is known, as of a pipe, it grows.
pub fn read_bytes(rt: &HostRuntime, path: &str) -> io::Result<Vec<u8>>
    ensures { IfOk result (λ v. length v.items ≤ 67108865) }
{
    let file = fs::open(rt, path)?;
    // A byte more than the file has, so that the read that finds the end needs no more room.
    let room = file.metadata()?.len().saturating_add(1).min(MOST_READ);
    let mut bytes = Vec::with_capacity(rt.alloc(), room as usize)?;
    file.take(MOST_READ).read_to_end(&mut bytes)?;
    // proof: no clause of the reader says that it ends there.
    bytes.truncate(MOST_READ as usize);
    Ok(bytes)
}

/// The input of an NPY file.
fn read_input(rt: &HostRuntime, path: &str) -> io::Result<Input>
    ensures { IfOk result (λ input. IsNpy (source_of input)) }
{
    let bytes = read_bytes(rt, path)?;
    Ok(Input::Npy(bytes))
}

/// Sets the inputs of a notebook in order, to the first that is not to be had.
fn set_inputs<'a>(
    rt: &HostRuntime,
    meter: &mut Meter,
    notebook: &mut Notebook,
    inputs: &[InputFile<'a>],
) -> Result<(), ProgramFault<'a>> {
    for input in inputs {
        let source = match read_input(rt, input.path) {
            Ok(source) => source,
            Err(error) => return Err(ProgramFault::UnreadInput(*input, error)),
        };
        if let Err(fault) = notebook.set_input(meter, input.name, source) {
            return Err(ProgramFault::RefusedInput(*input, fault));
        }
    }
    Ok(())
}

/// Runs the script of a reader; the answers go to standard output.
fn run_reader<S: Scripting, R: Read + Drop>(
    rt: &HostRuntime,
    is_desk: bool,
    reader: R,
    meter: &mut Meter,
    notebook: &mut Notebook,
) -> Result<(), RunFault> {
    let mut reader = ScriptReader::new(reader);
    let mut writer = ScriptWriter::new(rt.stdout());
    S::run_script(rt, is_desk, &mut reader, &mut writer, meter, notebook)
}

/// Runs the script that is asked for, or that of standard input. A script that cannot be opened
/// cannot be read.
fn run_asked<'a, S: Scripting>(
    rt: &HostRuntime,
    request: &Request<'a>,
    meter: &mut Meter,
    notebook: &mut Notebook,
) -> Result<(), ProgramFault<'a>> {
    let Some(path) = request.script else {
        return match run_reader::<S, _>(rt, request.is_desk, rt.stdin(), meter, notebook) {
            Ok(()) => Ok(()),
            Err(fault) => Err(ProgramFault::Stopped(fault)),
        };
    };
    let ended = match fs::open(rt, path) {
        Ok(file) => run_reader::<S, _>(rt, request.is_desk, file, meter, notebook),
        Err(error) => return Err(ProgramFault::UnopenedScript(path, error)),
    };
    match ended {
        Ok(()) => Ok(()),
        Err(fault) => Err(ProgramFault::StoppedScript(path, fault)),
    }
}

/// Runs the script that is asked for over its inputs, on a notebook without cells.
fn run_request<'a, S: Scripting>(
    rt: &HostRuntime,
    request: &Request<'a>,
    notebook: &mut Notebook,
) -> Result<(), ProgramFault<'a>> {
    let mut meter = if request.has_progress {
        Meter::telling(rt)
    } else {
        Meter::new(rt)
    };
    set_inputs(rt, &mut meter, notebook, &request.inputs)?;
    run_asked::<S>(rt, request, &mut meter, notebook)
}

/// Runs the script that a command line names, of which the first word is the program, over its
/// inputs.
fn run_command_line<'a, S: Scripting>(
    rt: &HostRuntime,
    words: &'a [String],
) -> Result<(), ProgramFault<'a>> {
    let request = request_of(rt.alloc(), S::has_desk(), words)?;
    let mut notebook = Notebook::new(rt.alloc());
    let ended = run_request::<S>(rt, &request, &mut notebook);
    drop(notebook);
    ended
}

/// The exit status of a run, of which a fault is said on standard error.
fn status_of_run(rt: &HostRuntime, ended: Result<(), ProgramFault>) -> ExitCode
    ensures { exit_status result ≤ 3 }
{
    match ended {
        Ok(()) => ExitCode::from(ENDED),
        Err(fault) => {
            let _ = eprintln!(rt; "{NAME}: {fault}");
            ExitCode::from(fault.status())
        }
    }
}

/// Runs a program with these words, of which the first is its name, and gives its exit status:
///
/// ```text
/// 0  the script ended           2  the command line is refused
/// 1  it was not run to its end  3  an input is not to be had
/// ```
///
/// Why it is not 0 is said on standard error. `ndnote --script s.ndn x=x.npy` sets the input `x`,
/// and runs `s.ndn`.
fn status_of_words<S: Scripting>(rt: &HostRuntime, words: &[String]) -> ExitCode
    ensures { exit_status result ≤ 3 }
{
    status_of_run(rt, run_command_line::<S>(rt, words))
}

/// Runs a program with the words of its command line, and gives its exit status, as `status_of`
/// does.
pub fn status_by<S: Scripting>(rt: &HostRuntime) -> ExitCode
    ensures { exit_status result ≤ 3 }
{
    match words_of(rt) {
        Ok(words) => status_of_words::<S>(rt, &words),
        Err(error) => status_of_run(rt, Err(ProgramFault::of_arguments(&error))),
    }
}

/// Runs the program without words for front ends with these words, as [`status_by`] does with those of the command line.
pub fn status_of(rt: &HostRuntime, words: &[String]) -> ExitCode
    ensures { exit_status result ≤ 3 }
{
    status_of_words::<Plain>(rt, words)
}
