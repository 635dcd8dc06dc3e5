// The dialects by name.
ghost use Rattle.std.specs.Prelude.{◌≡◌, ◌≤◌};
ghost use Rattle.tables.specs.Names.{name_of, Named, NamedFrom};

use lines::line;
use lines::line::Line;
use receive::Dialect;

const DIALECTS: [Dialect; 4] = [
    Dialect::Datalink,
    Dialect::Lecom,
    Dialect::Love,
    Dialect::Lucid,
];

fn name_of(dialect: Dialect) -> &'static [u8]
    ensures { result.now ≡ name_of dialect }
{
    match dialect {
        Dialect::Datalink => b"datalink",
        Dialect::Lecom => b"lecom",
        Dialect::Love => b"love",
        Dialect::Lucid => b"lucid",
    }
}

// The dialect of a name. No match over the names: its proof would have 27 goals, 23 of them of words that are no name.
pub fn dialect_of(name: &[u8]) -> Option<Dialect>
    ensures { Named name.now result }
{
    DIALECTS
        .iter()
        .copied()
        .find(|dialect| line::is_word(name, name_of(*dialect)))
}

// The next word as a dialect's name.
pub fn read_dialect(line: &mut Line) -> Option<Dialect>
    ensures named { NamedFrom line.old.bytes.now line.old.at result }
    ensures stays { line.new.bytes.now ≡ line.old.bytes.now }
    ensures after { line.old.at ≤ line.new.at }
{
    dialect_of(line.word())
}
