//! What holds of every text, whoever reads it.
ghost use Rattle.as2_framing.specs.ChunkLaws.{BeginsOneChunked, HasOneFault, NeverFaultyChunked, NeverOpenChunked, NeverOpenFault};

/// A text begins with one chunked body at most. Of beginning with one, having a bad chunk, being too large and being open it does one
/// at most.
pub fn one_chunked_body()
    ensures one { BeginsOneChunked }
    ensures sound { NeverFaultyChunked }
    ensures whole { NeverOpenChunked }
    ensures one_fault { HasOneFault }
    ensures fault { NeverOpenFault }
{}
