// Words of a record, one behind the other. A state has at most 5254: 64 tracks of 76 words, 32 sequences of 2, 64 candidates of 5, and 6 more.
pub type Words = wire::words::Words<5256>;
