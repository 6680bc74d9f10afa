// The size of an image, and where the fields of the own part and the counts lie in it, behind the checkpoint.
use checkpoint::layout::CHECKPOINT_SIZE;
use records::layout::ANNOUNCEMENT_SIZE;

pub const IMAGE_SIZE: usize = 1144;

pub const OWN_AT: usize = CHECKPOINT_SIZE;

pub const LIFE_AT: usize = OWN_AT + 1;

pub const FLAG_AT: usize = LIFE_AT + 4;

pub const VOTE_AT: usize = FLAG_AT + 1;

pub const COUNTS_AT: usize = VOTE_AT + ANNOUNCEMENT_SIZE;
