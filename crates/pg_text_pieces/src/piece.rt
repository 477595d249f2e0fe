//! Pieces of lines, and how they are printed.
ghost use Rattle.std.specs.Fmt.{WritesOnOk};
ghost use Rattle.pg_text_pieces.specs.Writing.{piece_bytes, pieces_bytes};

use std::fmt;

/// A piece of a line.
#[derive(Clone, Copy)]
pub enum Piece<'t> {
    /// A text, printed as it is.
    Text(&'t str),
    /// A number, printed in decimal digits.
    Number(usize),
}

/// Prints the pieces, one after another (ours).
pub fn show_pieces<W: fmt::Write>(pieces: &[Piece], f: &mut fmt::Formatter<W>) -> fmt::Result
    ensures { WritesOnOk W.write_str_gives f.old result (pieces_bytes pieces.now) f.new }
{
    for piece in pieces {
        show_piece(*piece, f)?;
    }
    Ok(())
}

fn show_piece<W: fmt::Write>(piece: Piece, f: &mut fmt::Formatter<W>) -> fmt::Result
    ensures { WritesOnOk W.write_str_gives f.old result (piece_bytes piece.entry) f.new }
{
    match piece {
        Piece::Text(text) => f.write_str(text),
        Piece::Number(number) => write!(f, "{number}"),
    }
}
