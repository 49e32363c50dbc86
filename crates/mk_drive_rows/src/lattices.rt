// Two moves of the twisted cubic, and with the third that completes them.
pub(crate) const MOVES: [&str; 2] = [
    "2 4\n1 -2 1 0\n0 -1 2 -1\n",
    "3 4\n1 -2 1 0\n0 -1 2 -1\n1 -1 -1 1\n",
];

// Three moves, each two of whose leads overlap.
pub(crate) const OVERLAPPING: &str = "3 4\n1 1 -1 -1\n1 -1 1 -1\n-1 1 1 -1\n";

// These, and what is left of the pair (0, 2).
pub(crate) const ONE_PLACED: &str = "4 4\n1 1 -1 -1\n1 -1 1 -1\n-1 1 1 -1\n2 0 -2 0\n";

// The three overlapping moves and the two that are placed.
pub(crate) const TWO_PLACED: &str = "5 4\n1 1 -1 -1\n1 -1 1 -1\n-1 1 1 -1\n2 0 -2 0\n0 2 -2 0\n";
