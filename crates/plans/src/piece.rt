// A piece: a drill or a recording, with its kind and its home branch.
ghost use Rattle.std.proofs.Common.{rules};
ghost use Rattle.plans.specs.Piece.{piece_checked, piece_at, no_piece};

use crate::layout::Layout;
use fields::{FieldFault, PIECE_KINDS, Record, byte, check_below};

#[derive(Clone, Copy, Default)]
pub struct Piece {
    pub kind: u8,
    pub home: u8,
}

impl Record for Piece {
    type Scope = Layout;

    const WIDTH: u8 = 2;

    ghost WIDTH = { 2 };

    ghost checked = { piece_checked };

    ghost made = { piece_at };

    ghost empty = { no_piece };

    fn check(bytes: &[u8], layout: Layout, at: u32, _number: u16) -> Result<(), FieldFault> {
        let at = at as usize;
        check_below(bytes, at, PIECE_KINDS.into())?;
        check_below(bytes, at + 1, layout.branches.count)
    }

    fn read(bytes: &[u8], at: u32) -> Piece {
        let at = at as usize;
        Piece {
            kind: byte(bytes, at),
            home: byte(bytes, at + 1),
        }
    }

    ghost blank = { Prim.search rules };
}
