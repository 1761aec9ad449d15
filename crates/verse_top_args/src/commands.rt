//! What a command line asks for.
ghost use Rattle.std.specs.Prelude.{◌≡◌, ◌≤◌, ◌↔◌, ◌∷◌, ◌++◌, ℤ, codes, length, List, IfOk, IfSome};
ghost use Rattle.std.specs.Prelude.{None};
ghost use Rattle.std.specs.Prelude.{IsTrue, MatchOption, map, string_bytes, option_copied};
ghost use Rattle.verse_top_args.specs.Words.{AreFiles, Command, EachIsFile, Inputs, IsFile};
ghost use Rattle.verse_top_args.specs.Words.{SayOnce};
ghost use Rattle.verse_top_args.specs.Words.{Says};
ghost use Rattle.verse_top_args.specs.Requests.{AreNamed, AsksFor, BeginsWithNoFile, Gave};
ghost use Rattle.verse_top_args.specs.Requests.{NoOptions, names_of};

use crate::numbers::{inputs, is, lists_inputs, number};
use crate::options::{Settings, all_options};
use std::alloc::Global;
use verse_base::limits::MOST_NOW;
use verse_base::refusals::Memory;

/// The most files that a program may have.
const MOST_FILES: usize = 16;
/// The steps that a run may spend where the words don't say.
pub const DEFAULT_STEPS: u64 = 10000000;
/// The horizon of the clock where the words don't say, in milliseconds.
pub const DEFAULT_UNTIL: u64 = MOST_NOW;
/// The least number of functions of a generated load.
const LEAST_LOAD: u64 = 2;
/// The greatest number of functions of a generated load.
const MOST_LOAD: u64 = 1000;

/// What the words after the program's name ask for.
#[derive(Clone, Copy)]
pub enum Request<'a> {
    /// That a program is run.
    Run(Running<'a>),
    /// That the machine of an image is run: there is one file.
    Exec(Running<'a>),
    /// That the machine of an image is run, and saved where it stops at its horizon: there is one
    /// file, and the lines of the heap are not asked for.
    Save(Running<'a>),
    /// That a saved run goes on: there is one file.
    Resume(Resuming<'a>),
    /// Whether the program in these files is accepted.
    Check(&'a [String]),
    /// The image of the code of the program in these files.
    Build(&'a [String]),
    /// The notes of the code of the program in these files.
    Note(&'a [String]),
    /// The listing of an image: there is one file.
    List(&'a [String]),
    /// The image of the code of a listing: there is one file.
    Assemble(&'a [String]),
    /// Whether the notes in the second file show that the image in the first is never stuck: there
    /// are two files.
    Verify(&'a [String]),
    /// That the generated load of so many functions is run: 2 to 1000.
    Load(u32),
}

/// What is to be run: the names of its files, and its inputs by the word that lists them.
#[derive(Clone, Copy)]
pub struct Running<'a> {
    pub files: &'a [String],
    pub steps: u64,
    pub until: u64,
    pub inputs: Option<&'a str>,
    pub heap: bool,
}

/// What goes on, by the name of its file, and to which horizon.
#[derive(Clone, Copy)]
pub struct Resuming<'a> {
    pub files: &'a [String],
    pub until: u64,
    pub heap: bool,
}

impl<'a> Request<'a> {
    /// The names of the files: 1 to 16 where words ask for this, but for a load, which has none.
    pub fn files(&self) -> &'a [String]
        ensures { map string_bytes result.now ≡ names_of self.now }
    {
        match self {
            Request::Run(running) | Request::Exec(running) => running.files,
            Request::Save(running) => running.files,
            Request::Resume(resuming) => resuming.files,
            Request::Check(files) | Request::Build(files) | Request::Note(files) => files,
            Request::List(files) | Request::Assemble(files) => files,
            Request::Verify(files) => files,
            Request::Load(_) => &[],
        }
    }
}

impl Running<'_> {
    /// What Main is given.
    pub fn ints(&self, alloc: Global) -> Result<Vec<i64>, Memory>
        requires { (ns : List ℤ) × Inputs (option_copied self.now.inputs) ns }
        ensures { IfOk result (λ v. Inputs (option_copied self.now.inputs) v.items) }
    {
        match self.inputs {
            Some(word) => inputs(alloc, word),
            None => Ok(Vec::new(alloc)),
        }
    }
}

/// No words are two commands.
pub fn words_say_once()
    ensures { SayOnce }
{}

/// Whether these words, those after the program's name, are a command. Takes no memory.
pub fn words_fit(words: &[String]) -> bool
    ensures { IsTrue result ↔ ((c : Command) × Says (map string_bytes words.now) c) }
{
    find_request(words).is_some()
}

/// What these words ask for, or None exactly where they are no command. Takes no memory.
pub fn find_request(words: &[String]) -> Option<Request<'_>>
    ensures asks { MatchOption result ((c : Command) → ¬ (Says (map string_bytes words.now) c))
        (λ r. (c : Command) × Says (map string_bytes words.now) c × AsksFor r c) }
    ensures files { IfSome result (λ r. AreNamed r) }
{
    let (command, behind) = words.split_first()?;
    let command = command.as_str();
    if is(command, "load") {
        return load(behind);
    }
    let (files, options) = split_files(behind);
    if !is_program(files) {
        return None;
    }
    if is(command, "run") {
        run(files, options)
    } else if is(command, "exec") {
        exec(files, options)
    } else if is(command, "save") {
        save(files, options)
    } else if is(command, "resume") {
        resume(files, options)
    } else if is(command, "check") {
        check(files, options)
    } else if is(command, "build") {
        build(files, options)
    } else if is(command, "note") {
        note(files, options)
    } else if is(command, "list") {
        list(files, options)
    } else if is(command, "assemble") {
        assemble(files, options)
    } else if is(command, "verify") {
        verify(files, options)
    } else {
        None
    }
}

/// Whether there are as many files as a program may have.
fn is_program(files: &[String]) -> bool
    ensures { IsTrue result ↔ ((1 ≤ length files.now) × (length files.now ≤ 16)) }
{
    !files.is_empty() && files.len() <= MOST_FILES
}

/// Whether there is no second file.
fn is_single(files: &[String]) -> bool
    ensures { IsTrue result ↔ (length files.now ≤ 1) }
{
    files.len() <= 1
}

/// Whether there is one file, and nothing behind it.
fn is_alone(files: &[String], options: &[String]) -> bool
    ensures { IsTrue result ↔ ((length files.now ≡ 1) × (length options.now ≡ 0)) }
{
    files.len() == 1 && options.is_empty()
}

/// Whether there are two files, and nothing behind them.
fn are_two(files: &[String], options: &[String]) -> bool
    ensures { IsTrue result ↔ ((length files.now ≡ 2) × (length options.now ≡ 0)) }
{
    files.len() == 2 && options.is_empty()
}

/// The words that name files, up to the first that does not, and those behind them.
fn split_files(words: &[String]) -> (&[String], &[String])
    ensures parts { words.now ≡ result.0.now ++ result.1.now }
    ensures files { EachIsFile (map string_bytes result.0.now) }
    ensures behind { BeginsWithNoFile (map string_bytes result.1.now) }
{
    let mut count = 0;
    'files: while count < words.len() && is_file(words[count].as_str()) {
        count += 1;
    }
    words.split_at(count)
}

/// The run of these files that the options behind them ask for.
fn run<'a>(files: &'a [String], options: &'a [String]) -> Option<Request<'a>>
    requires are { AreFiles (map string_bytes files.now) }
    requires behind { BeginsWithNoFile (map string_bytes options.now) }
    ensures asks { MatchOption result ((c : Command) →
        ¬ (Says (codes "run" ∷ map string_bytes files.now ++ map string_bytes options.now) c))
        (λ r. (c : Command) × Says (codes "run" ∷ map string_bytes files.now ++
        map string_bytes options.now) c × AsksFor r c) }
    ensures files { IfSome result (λ r. AreNamed r) }
{
    Some(Request::Run(with_options(files, options)?))
}

/// The run of the image in the one file that the options behind it ask for.
fn exec<'a>(files: &'a [String], options: &'a [String]) -> Option<Request<'a>>
    requires are { AreFiles (map string_bytes files.now) }
    requires behind { BeginsWithNoFile (map string_bytes options.now) }
    ensures asks { MatchOption result ((c : Command) →
        ¬ (Says (codes "exec" ∷ map string_bytes files.now ++ map string_bytes options.now) c))
        (λ r. (c : Command) × Says (codes "exec" ∷ map string_bytes files.now ++
        map string_bytes options.now) c × AsksFor r c) }
    ensures files { IfSome result (λ r. AreNamed r) }
{
    if !is_single(files) {
        return None;
    }
    Some(Request::Exec(with_options(files, options)?))
}

/// The run of the image in the one file that is to be saved, as the options behind it ask.
fn save<'a>(files: &'a [String], options: &'a [String]) -> Option<Request<'a>>
    requires are { AreFiles (map string_bytes files.now) }
    requires behind { BeginsWithNoFile (map string_bytes options.now) }
    ensures asks { MatchOption result ((c : Command) →
        ¬ (Says (codes "save" ∷ map string_bytes files.now ++ map string_bytes options.now) c))
        (λ r. (c : Command) × Says (codes "save" ∷ map string_bytes files.now ++
        map string_bytes options.now) c × AsksFor r c) }
    ensures files { IfSome result (λ r. AreNamed r) }
{
    if !is_single(files) {
        return None;
    }
    let running = with_options(files, options)?;
    if running.heap {
        return None;
    }
    Some(Request::Save(running))
}

/// The saved run in the one file that goes on, as the options behind it ask.
fn resume<'a>(files: &'a [String], options: &'a [String]) -> Option<Request<'a>>
    requires are { AreFiles (map string_bytes files.now) }
    requires behind { BeginsWithNoFile (map string_bytes options.now) }
    ensures asks { MatchOption result ((c : Command) →
        ¬ (Says (codes "resume" ∷ map string_bytes files.now ++ map string_bytes options.now) c))
        (λ r. (c : Command) × Says (codes "resume" ∷ map string_bytes files.now ++
        map string_bytes options.now) c × AsksFor r c) }
    ensures files { IfSome result (λ r. AreNamed r) }
{
    if !is_single(files) {
        return None;
    }
    let given = all_options(options)?;
    if !goes_on(given) {
        return None;
    }
    let Settings { until, heap, .. } = given;
    Some(Request::Resume(Resuming {
        files,
        until: until.unwrap_or(DEFAULT_UNTIL),
        heap,
    }))
}

/// Whether these options may be given for a run that goes on: its steps and its inputs are those
/// of the run that was saved.
fn goes_on(given: Settings<'_>) -> bool
    ensures { IsTrue result ↔ ((given.entry.steps ≡ None) ×
        (option_copied given.entry.inputs ≡ None)) }
{
    given.steps.is_none() && given.inputs.is_none()
}

/// These files with the options of a run.
fn with_options<'a>(files: &'a [String], options: &'a [String]) -> Option<Running<'a>>
    ensures gives { MatchOption result (NoOptions (map string_bytes options.now))
        (λ r. Gave (map string_bytes options.now) r) }
    ensures files { IfSome result (λ r. map string_bytes r.files.now ≡ map string_bytes files.now) }
{
    let given = all_options(options)?;
    if !fit_inputs(given.inputs) {
        return None;
    }
    Some(Running {
        files,
        steps: given.steps.unwrap_or(DEFAULT_STEPS),
        until: given.until.unwrap_or(DEFAULT_UNTIL),
        inputs: given.inputs,
        heap: given.heap,
    })
}

/// The check of these files, where nothing is behind them.
fn check<'a>(files: &'a [String], options: &'a [String]) -> Option<Request<'a>>
    requires are { AreFiles (map string_bytes files.now) }
    requires behind { BeginsWithNoFile (map string_bytes options.now) }
    ensures asks { MatchOption result ((c : Command) →
        ¬ (Says (codes "check" ∷ map string_bytes files.now ++ map string_bytes options.now) c))
        (λ r. (c : Command) × Says (codes "check" ∷ map string_bytes files.now ++
        map string_bytes options.now) c × AsksFor r c) }
    ensures files { IfSome result (λ r. AreNamed r) }
{
    if options.is_empty() {
        Some(Request::Check(files))
    } else {
        None
    }
}

/// The image of these files' program, where nothing is behind them.
fn build<'a>(files: &'a [String], options: &'a [String]) -> Option<Request<'a>>
    requires are { AreFiles (map string_bytes files.now) }
    requires behind { BeginsWithNoFile (map string_bytes options.now) }
    ensures asks { MatchOption result ((c : Command) →
        ¬ (Says (codes "build" ∷ map string_bytes files.now ++ map string_bytes options.now) c))
        (λ r. (c : Command) × Says (codes "build" ∷ map string_bytes files.now ++
        map string_bytes options.now) c × AsksFor r c) }
    ensures files { IfSome result (λ r. AreNamed r) }
{
    if options.is_empty() {
        Some(Request::Build(files))
    } else {
        None
    }
}

/// The notes of these files' program, where nothing is behind them.
fn note<'a>(files: &'a [String], options: &'a [String]) -> Option<Request<'a>>
    requires are { AreFiles (map string_bytes files.now) }
    requires behind { BeginsWithNoFile (map string_bytes options.now) }
    ensures asks { MatchOption result ((c : Command) →
        ¬ (Says (codes "note" ∷ map string_bytes files.now ++ map string_bytes options.now) c))
        (λ r. (c : Command) × Says (codes "note" ∷ map string_bytes files.now ++
        map string_bytes options.now) c × AsksFor r c) }
    ensures files { IfSome result (λ r. AreNamed r) }
{
    if options.is_empty() {
        Some(Request::Note(files))
    } else {
        None
    }
}

/// The listing of the image in the one file, where nothing is behind it.
fn list<'a>(files: &'a [String], options: &'a [String]) -> Option<Request<'a>>
    requires are { AreFiles (map string_bytes files.now) }
    requires behind { BeginsWithNoFile (map string_bytes options.now) }
    ensures asks { MatchOption result ((c : Command) →
        ¬ (Says (codes "list" ∷ map string_bytes files.now ++ map string_bytes options.now) c))
        (λ r. (c : Command) × Says (codes "list" ∷ map string_bytes files.now ++
        map string_bytes options.now) c × AsksFor r c) }
    ensures files { IfSome result (λ r. AreNamed r) }
{
    if is_alone(files, options) {
        Some(Request::List(files))
    } else {
        None
    }
}

/// The image of the code of the listing in the one file, where nothing is behind it.
fn assemble<'a>(files: &'a [String], options: &'a [String]) -> Option<Request<'a>>
    requires are { AreFiles (map string_bytes files.now) }
    requires behind { BeginsWithNoFile (map string_bytes options.now) }
    ensures asks { MatchOption result ((c : Command) →
        ¬ (Says (codes "assemble" ∷ map string_bytes files.now ++ map string_bytes options.now) c))
        (λ r. (c : Command) × Says (codes "assemble" ∷ map string_bytes files.now ++
        map string_bytes options.now) c × AsksFor r c) }
    ensures files { IfSome result (λ r. AreNamed r) }
{
    if is_alone(files, options) {
        Some(Request::Assemble(files))
    } else {
        None
    }
}

/// The test of the image in the first file by the notes in the second, where nothing is behind
/// these.
fn verify<'a>(files: &'a [String], options: &'a [String]) -> Option<Request<'a>>
    requires are { AreFiles (map string_bytes files.now) }
    requires behind { BeginsWithNoFile (map string_bytes options.now) }
    ensures asks { MatchOption result ((c : Command) →
        ¬ (Says (codes "verify" ∷ map string_bytes files.now ++ map string_bytes options.now) c))
        (λ r. (c : Command) × Says (codes "verify" ∷ map string_bytes files.now ++
        map string_bytes options.now) c × AsksFor r c) }
    ensures files { IfSome result (λ r. AreNamed r) }
{
    if are_two(files, options) {
        Some(Request::Verify(files))
    } else {
        None
    }
}

/// The load of as many functions as the one word says.
fn load(words: &[String]) -> Option<Request<'_>>
    ensures asks { MatchOption result ((c : Command) →
        ¬ (Says (codes "load" ∷ map string_bytes words.now) c))
        (λ r. (c : Command) × Says (codes "load" ∷ map string_bytes words.now) c × AsksFor r c) }
    ensures files { IfSome result (λ r. AreNamed r) }
{
    let [word] = words else {
        return None;
    };
    let functions = number(word.as_str(), MOST_LOAD)?;
    if functions < LEAST_LOAD {
        return None;
    }
    Some(Request::Load(functions as u32))
}

fn is_file(word: &str) -> bool
    ensures { IsTrue result ↔ IsFile word.now }
{
    match word.as_bytes() {
        [first, ..] => *first != b'-',
        [] => false,
    }
}

fn fit_inputs(inputs: Option<&str>) -> bool
    ensures { IsTrue result ↔ ((ns : List ℤ) × Inputs (option_copied inputs.entry) ns) }
{
    match inputs {
        Some(word) => lists_inputs(word),
        None => true,
    }
}
