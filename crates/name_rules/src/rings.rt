//! Which places of a graph stand above which, and whether one stands above itself.

ghost use Rattle.std.specs.Prelude.{◌≡◌, ◌<◌, ◌↔◌, IsTrue, length};
ghost use Rattle.name_rules.specs.Graphs.{GoThrough, GoesAlso, HasEdge, HasOneMore, IsClosure, IsSquare};

/// Whether an edge goes from one place to another.
pub(crate) fn has_edge(rows: &[Vec<bool>], i: usize, j: usize) -> bool
    requires square { IsSquare rows.now }
    requires from { i < length rows.now }
    requires to { j < length rows.now }
    ensures { IsTrue result ↔ HasEdge rows.now i j }
{
    rows[i][j]
}

/// Puts an edge between two places.
fn mark(rows: &mut [Vec<bool>], i: usize, j: usize)
    requires square { IsSquare rows.old }
    requires from { i < length rows.old }
    requires to { j < length rows.old }
    ensures { HasOneMore i j rows.old rows.new }
{
    rows[i][j] = true;
}

/// Lets one place go also to where another one goes.
fn join(rows: &mut [Vec<bool>], to: usize, from: usize)
    requires square { IsSquare rows.old }
    requires to { to < length rows.old }
    requires from { from < length rows.old }
    ensures { GoesAlso to from rows.old rows.new }
{
    for j in 0..rows.len() {
        if has_edge(rows, from, j) {
            mark(rows, to, j);
        }
    }
}

/// Lets each place that goes to this one go also to where this one goes.
fn join_all(rows: &mut [Vec<bool>], from: usize)
    requires square { IsSquare rows.old }
    requires from { from < length rows.old }
    ensures { GoThrough from rows.old rows.new }
{
    for to in 0..rows.len() {
        if has_edge(rows, to, from) {
            join(rows, to, from);
        }
    }
}

/// Puts an edge for each path. It takes no memory, and time in proportion to the cube of the number of places, at the most.
pub(crate) fn close(rows: &mut [Vec<bool>])
    requires { IsSquare rows.old }
    ensures { IsClosure rows.old rows.new }
{
    for k in 0..rows.len() {
        join_all(rows, k);
    }
}
