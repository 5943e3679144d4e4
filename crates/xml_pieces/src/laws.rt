//! Laws of the definitions.
//!
//! Reading a piece off the front of a text is the definition of how pieces are written, both ways. So no piece begins another, a text is cut
//! into pieces in one way, and a refusal says that no piece stands there.
ghost use Rattle.std.specs.Prelude.{◌≡◌, ℕ, List, ◌++◌, Some};
ghost use Rattle.xml_pieces.specs.declared.piece.Piece.{Piece};
ghost use Rattle.xml_pieces.specs.Reading.{a_piece};
ghost use Rattle.xml_pieces.specs.Written.{Written, IsWritten, MayPrecede, StandsFirst, spelled, piece_of};

/// What is written is read as what it says.
pub fn written_pieces_are_read()
    ensures { (w : Written) (rest : List ℕ) → IsWritten w → MayPrecede w rest → a_piece (spelled w ++ rest) ≡ Some (piece_of w, rest) }
{}

/// What is read was written.
pub fn read_pieces_were_written()
    ensures { (text : List ℕ) (p : Piece) (rest : List ℕ) → a_piece text ≡ Some (p, rest) → StandsFirst text p rest }
{}
