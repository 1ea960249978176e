// Answers requests from standard input, whose name is the argument, a line for each, until the input ends; a bad request ends the run. docs/ANSWERS.md has the form of a
// request and of a line.
#![tactic(auto)]

ghost use Rattle.std.specs.Prelude.{◌≡◌, ◌*◌, ◌≤◌, IfOk, length, replicate};
ghost use Rattle.octets.specs.Octets.{be, part};
ghost use Rattle.table.specs.Region.{listed};
ghost use Rattle.table.specs.Flat.{table_size};

use faults::length_from;
use intake::{Stopped, fill_from};
use lines::{put_answer, put_first, put_kind, put_name, put_output, put_table, put_tap, put_where};
use names::{read_short_name, write_short_name};
use octets::be32;
use outcome::{Failure, Outcome, run_named};
use questions::{first_biop, is_dvb, object_kind, tap_numbers};
use reading::{read_leading_into_by, read_whole_into_by};
use reference::{AddressWay, Answer, NameComponent, TypeIdRule, View};
use std::io::{ErrorKind, Read};
use std::process::ExitCode;
use std::{array, io};
use survey::is_exact;
use table::{FlatTable, SIZE, clear};
use table_struct::tables_of;
use text::{put_octet, put_word};
use writing::write_from_by;

// How many octets the numbers of a table have in a request.
const TABLE_OCTETS: usize = 4 * SIZE;

// The most octets of a source, and of an output.
const MOST: usize = 70000;

// The most octets of a line, with its end.
const LINE: usize = 150000;

// What an output holds before a writing.
const BEFORE: u8 = 0xA5;

// What each request is answered in: its table, its source, its output, and its line.
#[derive(Drop)]
struct Rooms {
    table: FlatTable,
    src: [u8; MOST],
    out: [u8; MOST],
    line: [u8; LINE],
    // How many octets of the line are put; its end fits behind them.
    used: usize,
    ghost has_end: { used ≤ 149999 },
}

// ---- the parts of a request

// How many octets of a part had come is told to nobody: its request has no line.
fn not_read(stopped: Stopped) -> Failure {
    Failure::NotRead(stopped.error)
}

// Fills `part` from standard input. A request that is cut is bad, as is each that breaks a rule below: the input is broken there.
fn take_into<R: Read>(input: &mut R, part: &mut [u8]) -> Outcome {
    let n = part.len();
    if fill_from(input, part).map_err(not_read)? < n {
        return Err(Failure::Broken);
    }
    Ok(())
}

// The next N octets.
fn take<R: Read, const N: usize>(input: &mut R) -> Result<[u8; N], Failure> {
    let mut octets = [0u8; N];
    take_into(input, &mut octets)?;
    Ok(octets)
}

// The count of a source, or of an output; bad if there is no room for so many.
fn take_size<R: Read>(input: &mut R) -> Result<usize, Failure>
    ensures { IfOk result (λ n. n ≤ 70000) }
{
    let n = u32::from_be_bytes(take(input)?) as usize;
    if MOST < n {
        return Err(Failure::Broken);
    }
    Ok(n)
}

// A source, at the start of `src`.
fn take_source<'a, R: Read>(input: &mut R, src: &'a mut [u8; MOST]) -> Result<&'a [u8], Failure>
    ensures { IfOk result (λ source. length source.now ≤ 70000) }
{
    let n = take_size(input)?;
    take_into(input, &mut src[..n])?;
    Ok(&src[..n])
}

// The numbers of a table, four octets each.
fn numbers_of(octets: &[u8; TABLE_OCTETS]) -> FlatTable
    ensures { result ≡ listed table_size (λ i. be (part octets.now (4 * i) 4)) }
{
    array::from_fn(|i| be32(octets, 4 * i))
}

// A table from outside; bad if it is cut or not exact.
fn take_table<R: Read>(input: &mut R, table: &mut FlatTable) -> Outcome {
    *table = numbers_of(&take(input)?);
    if !is_exact(table) {
        return Err(Failure::Broken);
    }
    Ok(())
}

// A name by its views, four octets each number. Taken at once: a read for each number would take half as long again.
fn take_name<R: Read>(input: &mut R) -> Result<NameComponent, Failure> {
    let octets: [u8; 16] = take(input)?;
    Ok(NameComponent {
        id: View {
            at: be32(&octets, 0),
            len: be32(&octets, 4),
        },
        kind: View {
            at: be32(&octets, 8),
            len: be32(&octets, 12),
        },
    })
}

// A rule; bad if its octet numbers none.
fn take_rule<R: Read>(input: &mut R) -> Result<TypeIdRule, Failure> {
    let [number]: [u8; 1] = take(input)?;
    match number {
        1 => Ok(TypeIdRule::Multiple),
        2 => Ok(TypeIdRule::Gap),
        _ => Err(Failure::Broken),
    }
}

// A way: there is one.
fn take_way<R: Read>(input: &mut R) -> Result<AddressWay, Failure> {
    let [number]: [u8; 1] = take(input)?;
    match number {
        1 => Ok(AddressWay::Constants),
        _ => Err(Failure::Broken),
    }
}

// What reading a source answers. The table held zeros, so that its unused entries are zero.
fn take_reading<R: Read, F: FnOnce(&[u8], &mut FlatTable, TypeIdRule) -> Answer>(
    input: &mut R,
    rooms: &mut Rooms,
    read: F,
    rule: TypeIdRule,
) -> Result<Answer, Failure>
    requires { F.IsAlwaysCallable read }
{
    let src = take_source(input, &mut rooms.src)?;
    clear(&mut rooms.table);
    Ok(read(src, &mut rooms.table, rule))
}

// ---- one function for each sort of line

// What a reading answered; where it broke, too, if that is asked.
fn put_reading(answer: Answer, is_where: bool, line: &mut [u8; LINE]) -> usize
    ensures { result ≤ 106 }
{
    if is_where {
        return put_where(line, 0, answer);
    }
    put_answer(line, 0, answer)
}

fn answer_reading<R: Read, F: FnOnce(&[u8], &mut FlatTable, TypeIdRule) -> Answer>(
    input: &mut R,
    rooms: &mut Rooms,
    read: F,
    rule: TypeIdRule,
    is_where: bool,
) -> Outcome
    requires { F.IsAlwaysCallable read }
{
    let answer = take_reading(input, rooms, read, rule)?;
    let at = put_reading(answer, is_where, &mut rooms.line);
    rooms.used = put_table(&mut rooms.line, at, &rooms.table);
    Ok(())
}

// The line that tells where a reading broke.
fn answer_where<R: Read, F: FnOnce(&[u8], &mut FlatTable, TypeIdRule) -> Answer>(
    input: &mut R,
    rooms: &mut Rooms,
    read: F,
) -> Outcome
    requires { F.IsAlwaysCallable read }
{
    let answer = take_reading(input, rooms, read, TypeIdRule::Multiple)?;
    rooms.used = put_where(&mut rooms.line, 0, answer);
    Ok(())
}

fn answer_length<R: Read>(input: &mut R, rooms: &mut Rooms, rule: TypeIdRule) -> Outcome {
    let table = &mut rooms.table;
    take_table(input, table)?;
    let src = take_source(input, &mut rooms.src)?;
    let answer = length_from(table, src, rule);
    rooms.used = put_answer(&mut rooms.line, 0, answer);
    Ok(())
}

// An output before a writing.
fn fill(out: &mut [u8])
    ensures { out.new ≡ replicate (length out.old) 165 }
{
    out.fill(BEFORE);
}

// The line of a writing into an output that held the same octet throughout.
fn answer_written<R: Read, F: FnOnce(&FlatTable, &[u8], &mut [u8]) -> Answer>(
    input: &mut R,
    rooms: &mut Rooms,
    write: F,
) -> Outcome
    requires { F.IsAlwaysCallable write }
{
    let m = take_size(input)?;
    let src = take_source(input, &mut rooms.src)?;
    let whole: &mut [u8] = &mut rooms.out;
    let out = &mut whole[..m];
    fill(out);
    let answer = write(&rooms.table, src, out);
    let at = put_answer(&mut rooms.line, 0, answer);
    rooms.used = put_output(&mut rooms.line, at, out);
    Ok(())
}

fn answer_writing<R: Read>(
    input: &mut R,
    rooms: &mut Rooms,
    rule: TypeIdRule,
    way: AddressWay,
) -> Outcome {
    take_table(input, &mut rooms.table)?;
    answer_written(input, rooms, |table, src, out| {
        write_from_by(table, src, out, rule, way)
    })
}

fn answer_kind<R: Read>(input: &mut R, rooms: &mut Rooms) -> Outcome {
    let src = take_source(input, &mut rooms.src)?;
    rooms.used = put_kind(&mut rooms.line, 0, object_kind(src));
    Ok(())
}

fn answer_tap<R: Read>(input: &mut R, rooms: &mut Rooms) -> Outcome {
    let use_ = u16::from_be_bytes(take(input)?);
    let src = take_source(input, &mut rooms.src)?;
    rooms.used = put_tap(&mut rooms.line, 0, tap_numbers(use_, src));
    Ok(())
}

fn answer_name<R: Read>(input: &mut R, rooms: &mut Rooms) -> Outcome {
    let src = take_source(input, &mut rooms.src)?;
    rooms.used = put_name(&mut rooms.line, 0, read_short_name(src));
    Ok(())
}

fn answer_name_where<R: Read>(input: &mut R, rooms: &mut Rooms) -> Outcome {
    let src = take_source(input, &mut rooms.src)?;
    let answer = read_short_name(src).map(|(_, next)| next);
    rooms.used = put_where(&mut rooms.line, 0, answer);
    Ok(())
}

fn answer_name_writing<R: Read>(input: &mut R, rooms: &mut Rooms) -> Outcome {
    let name = take_name(input)?;
    answer_written(input, rooms, |_, src, out| write_short_name(name, src, out))
}

fn answer_first<R: Read>(input: &mut R, rooms: &mut Rooms) -> Outcome {
    take_table(input, &mut rooms.table)?;
    let first = first_biop(tables_of(&rooms.table));
    rooms.used = put_first(&mut rooms.line, 0, first);
    Ok(())
}

fn answer_address<R: Read>(input: &mut R, rooms: &mut Rooms) -> Outcome {
    let word: &[u8] = if is_dvb(take(input)?) { b"yes" } else { b"no" };
    rooms.used = put_word(&mut rooms.line, 0, word);
    Ok(())
}

// ---- all of them

fn answer<R: Read>(input: &mut R, rooms: &mut Rooms, op: u8) -> Outcome {
    match op {
        1 => answer_reading(
            input,
            rooms,
            read_leading_into_by,
            TypeIdRule::Multiple,
            false,
        ),
        2 => answer_reading(
            input,
            rooms,
            read_whole_into_by,
            TypeIdRule::Multiple,
            false,
        ),
        3 => answer_length(input, rooms, TypeIdRule::Multiple),
        4 => answer_writing(input, rooms, TypeIdRule::Multiple, AddressWay::Constants),
        5 => answer_kind(input, rooms),
        6 => answer_tap(input, rooms),
        7 => answer_name(input, rooms),
        8 => answer_name_writing(input, rooms),
        9 => answer_first(input, rooms),
        10 => answer_address(input, rooms),
        11 => answer_where(input, rooms, read_leading_into_by),
        12 => answer_where(input, rooms, read_whole_into_by),
        13 => answer_name_where(input, rooms),
        14 => {
            let rule = take_rule(input)?;
            answer_reading(input, rooms, read_leading_into_by, rule, true)
        }
        15 => {
            let rule = take_rule(input)?;
            answer_reading(input, rooms, read_whole_into_by, rule, true)
        }
        16 => {
            let rule = take_rule(input)?;
            answer_length(input, rooms, rule)
        }
        17 => {
            let rule = take_rule(input)?;
            let way = take_way(input)?;
            answer_writing(input, rooms, rule, way)
        }
        _ => Err(Failure::Broken),
    }
}

// ---- one request after the other

// The op that the next request begins with; none where the input has ended.
fn take_op<R: Read>(input: &mut R) -> Result<Option<u8>, Failure> {
    let mut op = [0u8; 1];
    let came = fill_from(input, &mut op).map_err(not_read)?;
    if came == 0 {
        return Ok(None);
    }
    Ok(Some(op[0]))
}

fn serve<R: Read>(input: &mut R, to: &impl Print, rooms: &mut Rooms, op: u8) -> Outcome {
    answer(input, rooms, op)?;
    let end = put_octet(&mut rooms.line, rooms.used, b'\n');
    to.write_all(&rooms.line[..end])
        .map_err(Failure::NotWritten)
}

// A proved loop has to end, and nothing says that the input does: it has a number of turns that no run uses up.
fn serve_all<R: Read>(input: &mut R, to: &impl Print, rooms: &mut Rooms) -> Outcome {
    for _ in 0..u64::MAX {
        let Some(op) = take_op(input)? else {
            return Ok(());
        };
        serve(input, to, rooms, op)?;
    }
    Err(Failure::NotRead(io::Error::from(ErrorKind::FileTooLarge)))
}

// The run, apart from the input's name, so that no array stands beside it. A bad request is said.
fn run<R: Read>(input: &mut R, to: &impl Print) -> Outcome {
    let mut rooms = Rooms {
        table: [0u32; SIZE],
        src: [0u8; MOST],
        out: [0u8; MOST],
        line: [0u8; LINE],
        used: 0,
    };
    let outcome = serve_all(input, to, &mut rooms);
    if let Err(Failure::Broken) = outcome {
        to.write_all(b"bad request\n").map_err(Failure::NotWritten)?;
    }
    outcome
}

fn main(rt: HostRuntime) -> ExitCode {
    run_named(&rt, || run(&mut rt.stdin(), &rt))
}
