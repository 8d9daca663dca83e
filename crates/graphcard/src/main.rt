#![tactic(auto)]

// Prints the card of each graph file that the arguments name: its numbers, where it is small its rows, and a survey.
ghost use Rattle.std.specs.Prelude.{◌≤◌, length, IfOk};

use anyhow::anyhow;
use graphs::{FileGraph, Graph, GraphFile, Shape};
use refusals::{Place, Row};
use std::str::FromStr;
use std::{env, fs, io};
use surveys::RowTable;

const USAGE: &str =
    "usage: graphcard GROUP.. where a GROUP is: listed FILE n m c S, or: lift FILE a b L c S";

// A graph with more rows than this has its numbers printed, and not its rows.
const MOST_ROWS: usize = 16;

// What a word says a file is. The graphs keep the form of a file inside its shape, so it is told from the word here.
#[derive(Clone, Copy)]
enum Kind {
    Listed,
    Lift,
}

// A word that names no kind of graph file.
#[derive(Clone, Copy)]
struct UnknownKind;

impl FromStr for Kind {
    type Err = UnknownKind;

    fn from_str(word: &str) -> Result<Kind, UnknownKind> {
        match word {
            "listed" => Ok(Kind::Listed),
            "lift" => Ok(Kind::Lift),
            _ => Err(UnknownKind),
        }
    }
}

// Why the words after a file's name give no sizes.
#[derive(Clone, Copy)]
enum Flaw<'w> {
    CutShort,
    NotANumber(&'w str),
}

impl Kind {
    // How many numbers stand behind a file of this kind: those that it is opened with, and the size of a survey.
    fn numbers(self) -> usize
        ensures low { 4 ≤ result }
        ensures high { result ≤ 5 }
    {
        match self {
            Kind::Listed => 4,
            Kind::Lift => 5,
        }
    }

    // The shape and the size of a survey that these words spell.
    fn sizes(self, words: &[String]) -> Result<(Shape, usize), Flaw<'_>> {
        match (self, words) {
            (Kind::Listed, [n, m, c, s]) => {
                let shape = Shape::listed(number(n)?, number(m)?, number(c)?);
                Ok((shape, number(s)?))
            }
            (Kind::Lift, [a, b, l, c, s]) => {
                let shape = Shape::lift(number(a)?, number(b)?, number(l)?, number(c)?);
                Ok((shape, number(s)?))
            }
            _ => Err(Flaw::CutShort),
        }
    }
}

// The number that `word` spells in decimal digits.
fn number(word: &String) -> Result<usize, Flaw<'_>> {
    let word = word.as_str();
    if !word.bytes().all(|b| b.is_ascii_digit()) {
        return Err(Flaw::NotANumber(word));
    }
    word.parse().map_err(|_| Flaw::NotANumber(word))
}

fn row_line<G: Graph>(rt: &HostRuntime, graph: &G, row: Row) -> anyhow::Result<()> {
    print!(rt; "row {} meets", row.0)?;
    let mut from = Place(0);
    while let Some(meeting) = graph.next_place(row, from) {
        let place = meeting.place.0;
        print!(rt; " {place}")?;
        from = Place(place + 1);
    }
    println!(rt; "")?;
    Ok(())
}

fn card<G: Graph>(rt: &HostRuntime, graph: &G) -> anyhow::Result<()> {
    let places = graph.places();
    let rows = graph.rows();
    let degree = graph.degree();
    let edges = places.saturating_mul(degree);
    println!(rt; "{places} places, {rows} rows, degree {degree}, {edges} edges")?;
    if rows <= MOST_ROWS {
        for j in 0..rows as u16 {
            row_line(rt, graph, Row(j))?;
        }
    }
    Ok(())
}

// Surveys a graph and prints what is told, or the fault's line.
fn survey_line<G: Graph>(rt: &HostRuntime, graph: &G, size: usize) -> anyhow::Result<()> {
    let table = RowTable::of(rt.alloc(), graph)?;
    print!(rt; "survey {size}: ")?;
    if let Err(fault) = table.check_size(size) {
        return Ok(rt.println(fault)?);
    }
    let survey = table.survey(size);
    print!(rt; "level {}, {} sets, ", survey.level, survey.sets)?;
    if !survey.found {
        println!(rt; "none failing")?;
        return Ok(());
    }
    print!(rt; "failing at")?;
    for place in survey.failing.as_slice() {
        print!(rt; " {}", place.0)?;
    }
    println!(rt; "")?;
    Ok(())
}

// Opens the bytes of a file and prints the card and the survey, or the fault's line.
fn open(rt: &HostRuntime, bytes: &[u8], shape: Shape, size: usize) -> anyhow::Result<()> {
    match GraphFile::check(bytes, shape) {
        Ok(file) => {
            let graph = FileGraph::new(file);
            card(rt, &graph)?;
            survey_line(rt, &graph, size)
        }
        Err(fault) => Ok(rt.println(fault)?),
    }
}

// How many words stand before the next one that begins a group.
fn span(words: &[String]) -> usize
    ensures { result ≤ length words.now }
{
    let begins = |word: &String| word.parse::<Kind>().is_ok();
    words.iter().position(begins).unwrap_or(words.len())
}

// Prints what the group is that `first` begins, and answers the words after it.
fn group<'w>(rt: &HostRuntime, first: &String, rest: &'w [String]) -> anyhow::Result<&'w [String]>
    ensures { IfOk result (λ left. length left.now ≤ length rest.now) }
{
    let Ok(kind) = first.parse::<Kind>() else {
        println!(rt; "{first}: neither listed nor lift")?;
        return Ok(&rest[span(rest)..]);
    };
    // The word after the first is a file's name, whatever it spells.
    let Some((file, rest)) = rest.split_first() else {
        println!(rt; "{first}: the group is cut short")?;
        return Ok(rest);
    };
    let (numbers, rest) = rest.split_at(span(rest).min(kind.numbers()));
    match kind.sizes(numbers) {
        Err(Flaw::CutShort) => println!(rt; "{first}: the group is cut short")?,
        Err(Flaw::NotANumber(word)) => println!(rt; "{first} {file}: {word} is not a number")?,
        Ok((shape, size)) => {
            print!(rt; "{first} {file}: ")?;
            match fs::read(rt, file.as_str()) {
                Err(_) => println!(rt; "not a file that can be read")?,
                Ok(bytes) => open(rt, bytes.as_slice(), shape, size)?,
            }
        }
    }
    Ok(rest)
}

fn cards(rt: &HostRuntime) -> anyhow::Result<()> {
    let args = env::args(rt).map_err(|error| match error.kind() {
        io::ErrorKind::InvalidData => anyhow!("\"an argument is not UTF-8\""),
        _ => error.into(),
    })?;
    let words: Vec<String> = args.skip(1).collect(rt.alloc())?;
    if words.is_empty() {
        rt.println(USAGE)?;
    }
    let mut words = words.as_slice();
    while let Some((first, rest)) = words.split_first() {
        words = group(rt, first, rest)?;
    }
    Ok(())
}

fn main(rt: HostRuntime) -> anyhow::Result<()> {
    cards(&rt)
}
