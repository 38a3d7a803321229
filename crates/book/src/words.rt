ghost use Rattle.book.specs.Words.{OtherWords};

// What the book holds, said in other words: what stands is what was last accepted and not withdrawn since, and what is
// spent is counted.
pub fn book_in_other_words()
    ensures { OtherWords }
{}
