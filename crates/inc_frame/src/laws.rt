// A stream's spelling and its front, as the contract of a function that does nothing.
ghost use Rattle.std.specs.Prelude.{◌≡◌, ℕ, List, ◌++◌, length};
ghost use Rattle.inc_bytes.specs.Fields.{AreBytes};
ghost use Rattle.inc_frame.specs.Frames.{BeginsWithStream, IsStream, stream_bytes};
ghost use Rattle.inc_frame.specs.Fronts.{Ended, Faulty, front_from, joined_front, stream_front};
ghost use Rattle.inc_frame.specs.declared.fault.FrameFault.{FrameFault};
ghost use Rattle.inc_frame.specs.declared.piece.Piece.{Piece};

/// Bytes are read as the stream that they spell, however they are cut, and refused only where no stream begins with them.
pub fn streams_are_read()
    // A stream's front is its pieces and its end, whatever follows.
    ensures again { (version : ℕ) (pieces : List Piece) (more : List ℕ) → IsStream version pieces
        → stream_front (stream_bytes version pieces ++ more) ≡ record { pieces = pieces; state = Ended (length (stream_bytes version pieces)) } }

    // What was read of bytes with an end is the stream that they begin with: its pieces spell them, up to that end.
    ensures spelled { (bytes : List ℕ) (count : ℕ) → AreBytes bytes → (stream_front bytes).state ≡ Ended count → BeginsWithStream bytes (stream_front bytes).pieces count }

    // A front goes on from that of the first bytes.
    ensures cut { (first second : List ℕ) → stream_front (first ++ second) ≡ joined_front (stream_front first).pieces (front_from (stream_front first).state second) }

    // Behind a fault there is no stream, whatever follows.
    ensures refused { (bytes more extra : List ℕ) (fault : FrameFault) (version : ℕ) (pieces : List Piece) → (stream_front bytes).state ≡ Faulty fault → IsStream version pieces
        → bytes ++ more ≡ stream_bytes version pieces ++ extra → ⊥ }
{}
