//! Reads a whole scenario, and runs it.
ghost use Rattle.std.specs.Prelude.{◌≡◌, ◌≤◌, length, Some, IfSome, OnOk, IfErr, ◌≢◌, ◌<◌, ℕ, IfOk, string_bytes, vec_len};
ghost use Rattle.ring_scenario.specs.{Faults.IsEarly, Faults.IsOfWriting, Faults.OfLine, Keeping.KeepsRest};
ghost use Rattle.ring_scenario.specs.Running.{FailsAt, FailsScenario, IsNotBlankAt, RunsScenario, RunsText, RunsToEnd};
ghost use Rattle.ring_scenario.specs.{Running.StopsAt, Running.ended_text, Running.finished_text, Sizes.size_fault_of};
ghost use Rattle.std.specs.Io.KnownBytes.{Appends};
ghost use Rattle.ring_scenario.specs.{declared.lines.fault.LineError.LineError, Asking.AsksForNone, Asking.IsLine};
ghost use Rattle.ring_scenario.specs.Cutting.{lines_of, words_of, AllBlank, IsBlank, IsEnd};
ghost use Rattle.ring_scenario.specs.Executing.{CannotExecute, Executes};
ghost use Rattle.ring_counters.specs.{Manager.registry_of, Registry.live_of};

use crate::fault::RunFault;
use crate::lines::{Call, Line, LineError, Lines, MAX_INPUT};
use crate::options::Options;
use crate::runner::{Ended, Runner};
use crate::service::Served;
use ring_counters::CountersManager;
use std::alloc::Global;
use std::io::{ErrorKind, Read, Write};
use std::sync::Wait;
use std::thread::Threads;

/// The largest number of read calls.
pub const MAX_READS: u32 = 2_097_152;

/// Reads a whole scenario, executes its lines in order, and writes the text that each of them prints.
pub fn run_scenario<R: AllocGlobal + Threads + Wait, I: Read, O: Write>(
    rt: &R,
    alloc: Global,
    options: &Options,
    reader: &mut I,
    writer: &mut O,
) -> Result<(), RunFault>
    // The last line that is not blank is `end`. The lines before it ran, each once and in order. The text that was
    // written is what these lines and `end` printed.
    ensures ran { OnOk result (IfSome (I.remaining reader.old) (λ text.
        RunsScenario options.now text (O.contents writer.old) (O.contents writer.new))) }

    // The line that is reported is the first bad line. The text that was written is what the lines before it printed.
    ensures bad { IfErr result (OfLine (λ line. IfSome (I.remaining reader.old) (λ text.
        FailsScenario options.now text (O.contents writer.old) (O.contents writer.new) line))) }

    // Options are checked before any input is read, and only they give these faults.
    ensures sizes { IfSome (size_fault_of options.now) (λ fault. (result ≡ Err fault) × (reader.new ≡ reader.old)) }
    ensures capacity { result ≡ Err RunFault.BadCapacity → size_fault_of options.now ≡ Some RunFault.BadCapacity }
    ensures count { result ≡ Err RunFault.BadCount → size_fault_of options.now ≡ Some RunFault.BadCount }

    // Nothing is written before the input was read.
    ensures silent { IfErr result (λ fault. IsEarly fault → writer.new ≡ writer.old) }
{
    options.test()?;
    let runner = Runner::new(alloc, options)?;
    let input = read_input(alloc, reader)?;
    run_text(rt, alloc, runner, input.as_slice(), writer)
}

/// Reads to the end of the input. A read that was interrupted is tried again, and is counted as a call.
fn read_input<R: Read>(alloc: Global, reader: &mut R) -> Result<Vec<u8>, RunFault>
    ensures whole { IfOk result (λ input. IfSome (R.remaining reader.old) (λ bytes. input.items ≡ bytes)) }
    ensures short { IfOk result (λ input. vec_len input ≤ MAX_INPUT) }
    ensures lawful { result ≢ Err RunFault.BadCapacity × result ≢ Err RunFault.BadCount
        × result ≢ Err RunFault.OutputUnwritten × ((line : ℕ) (reason : LineError) → result ≢ Err (RunFault.BadLine line reason)) }
    ensures long { result ≡ Err RunFault.InputTooLong
        → IfSome (R.remaining reader.old) (λ bytes. MAX_INPUT < length bytes) }
{
    let mut input = Vec::new(alloc);
    let mut chunk = [0; 4096];
    for _ in 0..MAX_READS {
        match reader.read(&mut chunk) {
            Ok(0) => return Ok(input),
            Ok(n) => {
                if n > MAX_INPUT - input.len() {
                    return Err(RunFault::InputTooLong);
                }
                input.extend_from_slice(&chunk[..n])?;
            }
            Err(error) => {
                if error.kind() != ErrorKind::Interrupted {
                    return Err(RunFault::InputUnread);
                }
            }
        }
    }
    Err(RunFault::InputUnread)
}

/// Executes the lines of a text in order, closes the parts of the runner, and writes how the run ended.
fn run_text<R: Threads + Wait, O: Write>(
    rt: &R,
    alloc: Global,
    mut runner: Runner,
    text: &[u8],
    writer: &mut O,
) -> Result<(), RunFault>
    requires { length text.now ≤ MAX_INPUT }
    ensures ran { OnOk result (RunsText text.now runner (O.contents writer.old) (O.contents writer.new)) }
    ensures bad { IfErr result (OfLine
        (FailsAt text.now runner (O.contents writer.old) (O.contents writer.new))) }
    ensures late { IfErr result (λ fault. ¬ IsEarly fault) }
{
    let mut lines = Lines::of(text);
    let outcome = run_to_end(rt, alloc, &mut runner, &mut lines, writer);
    let ended = runner.close();
    outcome?;
    let ended = ended?;
    write_end(alloc, ended, writer)?;
    rest_is_blank(alloc, &mut lines)
}

/// Executes the lines before the line `end`, and takes that line.
fn run_to_end<R: Threads + Wait, O: Write>(
    rt: &R,
    alloc: Global,
    runner: &mut Runner,
    lines: &mut Lines,
    writer: &mut O,
) -> Result<(), RunFault>
    requires { lines.old.taken ≡ 0 }
    ensures end { OnOk result (RunsToEnd lines.old.rest.now lines.new.rest.now runner.old runner.new
        (O.contents writer.old) (O.contents writer.new) lines.new.taken) }
    ensures bad { IfErr result (OfLine
        (StopsAt (lines_of lines.old.rest.now) runner.old (O.contents writer.old) (O.contents writer.new))) }
    ensures late { IfErr result (λ fault. ¬ IsEarly fault) }
{
    while let Some(text) = lines.next_line() {
        let number = lines.taken();
        match parse_at(alloc, text, number)? {
            Line::Nothing => {}
            Line::Call(call) => {
                let output = execute_at(rt, runner, call, number)?;
                write_text(writer, output.as_str())?;
            }
            Line::End => return Ok(()),
        }
    }
    Err(RunFault::BadLine {
        line: lines.taken() + 1,
        reason: LineError::NoEnd,
    })
}

/// Parses the line of this number.
fn parse_at(alloc: Global, text: &[u8], number: u32) -> Result<Line, RunFault>
    ensures line { IfOk result (λ line. IsLine line (words_of text.now)) }
    ensures blank { IsBlank (words_of text.now) → result ≡ Ok Line.Nothing }
    ensures end { IsEnd (words_of text.now) → result ≡ Ok Line.End }
    ensures bad { IfErr result (OfLine (λ line. (line ≡ number) × AsksForNone (words_of text.now))) }
    ensures late { IfErr result (λ fault. ¬ IsEarly fault) }
{
    match Line::parse(alloc, text) {
        Ok(line) => Ok(line),
        Err(fault) => Err(RunFault::at_line(fault, number)),
    }
}

/// Executes the call of the line of this number, and returns the lines that the call prints.
fn execute_at<R: Threads + Wait>(
    rt: &R,
    runner: &mut Runner,
    call: Call,
    number: u32,
) -> Result<String, RunFault>
    ensures line { IfOk result (λ text. Executes call runner.old runner.new (string_bytes text)) }
    ensures rest { OnOk result (KeepsRest call runner.old runner.new) }
    ensures bad { IfErr result (OfLine (λ line. (line ≡ number) × CannotExecute call runner.old)) }
    ensures late { IfErr result (λ fault. ¬ IsEarly fault) }
{
    match runner.execute(rt, call) {
        Ok(text) => Ok(text),
        Err(fault) => Err(RunFault::at_line(fault, number)),
    }
}

/// Tests that the lines after `end` have no words except those of comments.
fn rest_is_blank(alloc: Global, lines: &mut Lines) -> Result<(), RunFault>
    ensures blank { OnOk result (AllBlank (lines_of lines.old.rest.now)) }
    ensures bad { IfErr result (OfLine (IsNotBlankAt (lines_of lines.old.rest.now) lines.old.taken)) }
    ensures late { IfErr result (λ fault. ¬ IsEarly fault) }
{
    while let Some(text) = lines.next_line() {
        let number = lines.taken();
        match parse_at(alloc, text, number)? {
            Line::Nothing => {}
            Line::Call(_) | Line::End => {
                return Err(RunFault::BadLine {
                    line: number,
                    reason: LineError::AfterEnd,
                });
            }
        }
    }
    Ok(())
}

/// Writes what `end` prints. This is a line, and one more line if a conductor finished.
fn write_end<O: Write>(alloc: Global, ended: Ended, writer: &mut O) -> Result<(), RunFault>
    ensures written { OnOk result (Appends (O.contents writer.old) (O.contents writer.new) (ended_text ended)) }
    ensures fault { IfErr result IsOfWriting }
{
    let text = format!(in alloc; "end messages {} left {}\n", ended.messages, ended.left)?;
    write_text(writer, text.as_str())?;
    match ended.served {
        Some(served) => write_finished(alloc, &served, writer),
        None => Ok(()),
    }
}

fn write_finished<O: Write>(alloc: Global, served: &Served, writer: &mut O) -> Result<(), RunFault>
    ensures written { OnOk result
        (Appends (O.contents writer.old) (O.contents writer.new) (finished_text (Some served.now))) }
    ensures fault { IfErr result IsOfWriting }
{
    let text = format!(in alloc;
        "finished received {} left {} live {}\n",
        served.received,
        served.left,
        count_live(&served.counters)
    )?;
    write_text(writer, text.as_str())
}

/// Returns the number of counters in use.
fn count_live(counters: &CountersManager) -> usize
    ensures { result ≡ length (live_of (registry_of counters.now)) }
{
    // The proof needs a bound. The counters in use are at most all counters, whose number is a u32.
    let _all = counters.count();
    counters.iter().count()
}

fn write_text<O: Write>(writer: &mut O, text: &str) -> Result<(), RunFault>
    ensures written { OnOk result (Appends (O.contents writer.old) (O.contents writer.new) text.now) }
    ensures fault { IfErr result (λ fault. fault ≡ RunFault.OutputUnwritten) }
{
    writer
        .write_all(text.as_bytes())
        .map_err(|_| RunFault::OutputUnwritten)
}
