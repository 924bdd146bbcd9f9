//! A tree that a table drives: each public call once, with the text of the driven tree written by hand.

ghost use Rattle.std.specs.Prelude.{◌≤◌, length};
ghost use Rattle.tdf_base.specs.Limits.{longest_text};
ghost use Rattle.tdf_tables.specs.Tables.{longest_table};

use std::alloc::Global;
use tdf_cli::check_tree;
use tdf_lang_parser::parse;
use tdf_lang_printer::push_tree;
use tdf_stim::drive;
use tdf_tables::read_table;

const MODEL: &str = "language 1\n\
type w fixed 16 16\n\
top\n\
de_signal stim0 w 5\n\
end\n\
trace stim0 p\n";

const TABLE: &str = "%time stim0 x\n\
0 * 0\n\
0.000001 1 0\n\
0.000002 -3 0\n";

const DRIVEN: &str = "language 1\n\
type w fixed 16 16 trn wrap\n\
de stim1\n\
de_out q0 fixed 16 16 trn wrap\n\
array a0 fixed 16 16 trn wrap 3 5 1 -3\n\
var k fixed 16 16 trn wrap 0\n\
event e1\n\
event e2\n\
process\n\
sensitive e1\n\
sensitive e2\n\
if k == 0\n\
notify e1 after 1000000ps\n\
notify e2 after 2000000ps\n\
end\n\
for i 0 3\n\
if k == i\n\
q0 = a0[i]\n\
end\n\
end\n\
k = k + 1\n\
end\n\
end\n\
top\n\
de_signal stim0 w 5\n\
instance stim1 stim1\n\
bind stim1.q0 stim0\n\
end\n\
trace stim0 p\n";

/// The canonical text of the tree of a model that a table drives, and the label of the column that is ignored.
fn driven(alloc: Global, model: &[u8], table: &[u8]) -> Option<(Vec<u8>, Vec<u8>)>
    requires model { length model.now ≤ longest_text }
    requires table { length table.now ≤ longest_table }
{
    let table = read_table(alloc, table).ok()?;
    let tree = parse(alloc, model).ok()?;
    check_tree(alloc, &tree).ok()?;
    let mut driven = drive(alloc, tree, &table).ok()?;
    let mut out = Vec::new(alloc);
    push_tree(&mut out, &driven.tree).ok()?;
    let label = driven.ignored.pop()?;
    let label = Vec::from_slice(alloc, label.as_bytes()).ok()?;
    Some((out, label))
}

#[test]
fn drives_a_model(rt: HostRuntime) {
    let (text, ignored) = driven(rt.alloc(), MODEL.as_bytes(), TABLE.as_bytes()).expect(
        &rt,
        "a driven model",
    );
    assert_eq!(rt; text.as_slice(), DRIVEN.as_bytes());
    assert_eq!(rt; ignored.as_slice(), b"x".as_slice());
}
