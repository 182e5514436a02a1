// What holds of turns by chunks.
ghost use Rattle.ff_stencil.specs.Chunks.{ChunksMakeTheTurn, ChangesAddUp, ChunksOfOneSize};

/// However a line is cut into chunks, the cells of all chunks made anew are the line after a turn,
/// and their changes add up to those of the turn; so it is with chunks of one size, the last one
/// shorter.
pub fn chunks_make_the_turn()
    ensures cells { ChunksMakeTheTurn }
    ensures changes { ChangesAddUp }
    ensures one_size { ChunksOfOneSize }
{}
