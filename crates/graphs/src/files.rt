ghost use Rattle.std.specs.Prelude.{◌≡◌, false, is_some, IfOk};
ghost use Rattle.std.specs.Result.{result_err};
ghost use Rattle.graphs.specs.Files.{Octets, places_of, rows_of, file_fault, file_model};
ghost use Rattle.graphs.specs.FileLaws.{valid_granted};
ghost use Rattle.graphs.specs.ListedFiles.{ListedGranted, ListedEdges, ListedModels};
ghost use Rattle.graphs.specs.LiftFiles.{LiftGranted, LiftEdges, LiftModels};

use crate::records::Shape;
use crate::traits::{Edge, Graph};
use refusals::{Fault, Place, Row};

// A graph file, checked: with its shape it describes a graph.
#[derive(Drop)]
pub struct GraphFile<'a> {
    bytes: &'a [u8],
    shape: Shape,
    ghost octets: { Octets bytes.now },
    ghost sound: { is_some (file_fault bytes.now shape) ≡ false },
}

impl<'a> GraphFile<'a> {
    // Checks the bytes of a file against the shape that it is opened with.
    pub fn check(bytes: &'a [u8], shape: Shape) -> Result<GraphFile<'a>, Fault>
        ensures fault { result_err result ≡ file_fault bytes.now shape }
        ensures bytes { IfOk result (λ f. f.bytes.now ≡ bytes.now) }
        ensures shape { IfOk result (λ f. f.shape ≡ shape) }
    {
        shape.check(bytes)?;
        Ok(GraphFile { bytes, shape })
    }
}

// The graph of a file. It borrows the file's bytes.
#[derive(Drop)]
pub struct FileGraph<'a> {
    file: GraphFile<'a>,
    places: usize,
    rows: usize,
    ghost all_places: { places ≡ places_of file.shape },
    ghost all_rows: { rows ≡ rows_of file.shape },
}

impl<'a> FileGraph<'a> {
    pub fn new(file: GraphFile<'a>) -> FileGraph<'a>
        ensures { result.file ≡ file.entry }
    {
        let places = file.shape.columns * file.shape.lift;
        let rows = file.shape.bases * file.shape.lift;
        FileGraph { file, places, rows }
    }
}

impl Graph for FileGraph<'_> {
    ghost model = { λ g. file_model g.file.bytes.now g.file.shape };

    ghost valid = { λ g. valid_granted g.file.bytes.now g.file.shape g.file.octets g.file.sound };

    fn places(&self) -> usize {
        self.places
    }

    fn rows(&self) -> usize {
        self.rows
    }

    fn degree(&self) -> usize {
        self.file.shape.degree
    }

    fn edge(&self, place: Place, k: usize) -> Option<Edge> {
        let i = usize::from(place.0);
        let shape = self.file.shape;
        if i >= self.places || k >= shape.degree {
            return None;
        }
        let (column, t) = shape.column_of(i);
        let record = column * shape.degree + k;
        let entry = shape.form.entry(self.file.bytes, record);
        let row = shape.row(entry, t);
        Some(Edge {
            row: Row(row as u16),
            weight: entry.weight,
        })
    }
}

// The laws below are cited in `proofs/`: the tactics do not find all of them by name.
// A listed file is granted exactly when it describes a graph, the edges of that graph are the listed ones, and it is the
// graph of the file's shape.
pub fn listed_files_describe_graphs()
    ensures granted { ListedGranted }
    ensures edges { ListedEdges }
    ensures models { ListedModels }
{}

// A lift is granted exactly when it describes a graph, the edges of that graph are those that its records mean, and it is
// the graph of the file's shape.
pub fn lifts_describe_graphs()
    ensures granted { LiftGranted }
    ensures edges { LiftEdges }
    ensures models { LiftModels }
{}
