// Rows: what is known of each node, as an offset from the least node of its class.
ghost use Rattle.std.specs.Prelude.{◌≡◌, ◌+ℤ◌, map, false};
ghost use Rattle.mc_pure.specs.Rows.{IsLong, IsLongRow, IsSmall, StayBelow, StayLong, changed_by};

use mc_base::NodeId;

/// The node is `rep` plus `off`, and `rep` lies from `lo` to `hi`. Each row of a class has the same `lo` and `hi`.
#[derive(Clone, Copy)]
pub struct Row {
    pub node: NodeId,
    pub rep: NodeId,
    pub off: i64,
    pub lo: i64,
    pub hi: i64,
}

/// Class `gone` goes into class `keep`: `gone` is `keep` plus `by`, and `keep` lies from `lo` to `hi`.
#[derive(Clone, Copy)]
pub struct Change {
    pub gone: NodeId,
    pub keep: NodeId,
    pub by: i128,
    pub lo: i128,
    pub hi: i128,
}

/// The numbers from `lo` to `hi`.
#[derive(Clone, Copy)]
pub struct Span {
    pub lo: i128,
    pub hi: i128,
}

/// What a step did: which class it changed, if any. `False` says that what is known can't be true.
#[derive(Clone, Copy)]
pub enum Outcome {
    Same,
    Changed(NodeId),
    False,
}

/// The number in 64 bits.
pub fn narrow(number: i128) -> i64
    requires { IsLong number }
    ensures { result ≡ number }
{
    number as i64
}

/// How much more a row's node is than the node that its class goes into.
fn moved_off(row: &Row, change: &Change) -> i64
    requires by { IsSmall change.now.by }
    requires long { IsLong (row.now.off +ℤ change.now.by) }
    ensures { result ≡ row.now.off +ℤ change.now.by }
{
    (i128::from(row.off) + change.by) as i64
}

/// The row after a change.
pub fn moved(row: Row, change: &Change) -> Row
    requires by { IsSmall change.now.by }
    requires long { IsLongRow (changed_by change.now row) }
    ensures { result ≡ changed_by change.now row }
{
    if row.rep.0 == change.gone.0 {
        Row {
            node: row.node,
            rep: change.keep,
            off: moved_off(&row, change),
            lo: narrow(change.lo),
            hi: narrow(change.hi),
        }
    } else if row.rep.0 == change.keep.0 {
        Row {
            node: row.node,
            rep: row.rep,
            off: row.off,
            lo: narrow(change.lo),
            hi: narrow(change.hi),
        }
    } else {
        row
    }
}

/// Whether a change concerns a row.
fn concerns(change: &Change, row: &Row) -> bool
    ensures no { result ≡ false → changed_by change.now row.now ≡ row.now }
{
    row.rep.0 == change.gone.0 || row.rep.0 == change.keep.0
}

/// Changes a row.
fn change_row(row: &mut Row, change: &Change)
    requires by { IsSmall change.now.by }
    requires long { IsLongRow (changed_by change.now row.old) }
    ensures { row.new ≡ changed_by change.now row.old }
{
    if concerns(change, row) {
        *row = moved(*row, change);
    }
}

/// Changes every row, where the first ones stay as they are.
pub fn put(rows: &mut [Row], first: usize, change: &Change)
    requires by { IsSmall change.now.by }
    requires long { StayLong change.now rows.old }
    requires stay { StayBelow change.now rows.old first }
    ensures { rows.new ≡ map (changed_by change.now) rows.old }
{
    for i in first..rows.len() {
        change_row(&mut rows[i], change);
    }
}
