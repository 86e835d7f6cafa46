// What the words of the command line ask for.
use desk_lines::cut::parse_limit;
use text::{parse_number, parse_signed};

// What the desk can be asked.
#[derive(Clone, Copy)]
pub enum Subcommand {
    Why,
    Index,
    Cut,
    Compare,
    Rival,
}

impl From<&[u8]> for Subcommand {
    // A word that names none is taken for `why`.
    fn from(word: &[u8]) -> Subcommand {
        match word {
            b"index" => Subcommand::Index,
            b"cut" => Subcommand::Cut,
            b"compare" => Subcommand::Compare,
            b"rival" => Subcommand::Rival,
            _ => Subcommand::Why,
        }
    }
}

impl Subcommand {
    // How it is called: by the script, which runs `why` and `rival` in the folder.
    pub fn usage(self) -> &'static str {
        match self {
            Subcommand::Why => "usage: ./mnemathor why FOLDER ROW COLUMN",
            Subcommand::Index => "usage: ./mnemathor index CATALOGUE FLOOR OUT",
            Subcommand::Cut => "usage: ./mnemathor cut CATALOGUE LIMIT CLOSENESS OUT",
            Subcommand::Compare => "usage: ./mnemathor compare OLD NEW",
            Subcommand::Rival => "usage: ./mnemathor rival FOLDER",
        }
    }
}

// A subcommand with what its words say. The name of a file is as it was given.
pub enum Request<'a> {
    Why {
        row: usize,
        column: usize,
    },
    Index {
        catalogue: &'a [u8],
        floor: i64,
        out: &'a [u8],
    },
    Cut {
        catalogue: &'a [u8],
        limit: i32,
        closeness: i64,
        out: &'a [u8],
    },
    Compare {
        old: &'a [u8],
        new: &'a [u8],
    },
    Rival,
}

// What the words behind a subcommand ask: nothing where they are too few or too many, or where one should be a number and is none.
pub fn asked<'a>(subcommand: Subcommand, words: &[&'a [u8]]) -> Option<Request<'a>> {
    match (subcommand, words) {
        (Subcommand::Why, [row, column]) => Some(Request::Why {
            row: parse_number(row)?,
            column: parse_number(column)?,
        }),
        (Subcommand::Index, [catalogue, floor, out]) => Some(Request::Index {
            catalogue,
            floor: parse_signed(floor)?,
            out,
        }),
        (Subcommand::Cut, [catalogue, most, closeness, out]) => Some(Request::Cut {
            catalogue,
            limit: parse_limit(most)?,
            closeness: parse_signed(closeness)?,
            out,
        }),
        (Subcommand::Compare, [old, new]) => Some(Request::Compare { old, new }),
        (Subcommand::Rival, []) => Some(Request::Rival),
        _ => None,
    }
}
