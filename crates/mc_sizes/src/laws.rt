//! The law of the table of classes, the contract of a function that does nothing.

ghost use Rattle.std.specs.Prelude.{◌≡◌, ◌+◌, ◌/◌, [], ◌∷◌, map, Some, None};
ghost use Rattle.mc_sizes.specs.Classes.{chunk_sizes, class_of, page_size};

/// States the table of classes. It does nothing.
///
/// It gives the chunk sizes, how many chunks a page holds, and the edges of the first class and of
/// the last.
pub fn table_of_classes()
    ensures sizes { chunk_sizes ≡
        96 ∷ 120 ∷ 152 ∷ 192 ∷ 240 ∷ 304 ∷ 384 ∷ 480 ∷ 600 ∷ 752 ∷ 944 ∷ 1184 ∷ 1480 ∷ 1856 ∷
        2320 ∷ 2904 ∷ 3632 ∷ 4544 ∷ 5680 ∷ 7104 ∷ 8880 ∷ 11104 ∷ 13880 ∷ 17352 ∷ 21696 ∷ 27120 ∷
        33904 ∷ 42384 ∷ 52984 ∷ 66232 ∷ 82792 ∷ 103496 ∷ 129376 ∷ 161720 ∷ 202152 ∷ 252696 ∷
        315872 ∷ 394840 ∷ 493552 ∷ page_size ∷ [] }
    ensures chunks { map (λ size. page_size / size) chunk_sizes ≡
        10922 ∷ 8738 ∷ 6898 ∷ 5461 ∷ 4369 ∷ 3449 ∷ 2730 ∷ 2184 ∷ 1747 ∷ 1394 ∷ 1110 ∷ 885 ∷ 708 ∷
        564 ∷ 451 ∷ 361 ∷ 288 ∷ 230 ∷ 184 ∷ 147 ∷ 118 ∷ 94 ∷ 75 ∷ 60 ∷ 48 ∷ 38 ∷ 30 ∷ 24 ∷ 19 ∷
        15 ∷ 12 ∷ 10 ∷ 8 ∷ 6 ∷ 5 ∷ 4 ∷ 3 ∷ 2 ∷ 2 ∷ 1 ∷ [] }
    ensures first { (class_of 0 ≡ Some 1) × (class_of 96 ≡ Some 1) × (class_of 97 ≡ Some 2) }
    ensures last { (class_of 493552 ≡ Some 39) × (class_of 493553 ≡ Some 40)
        × (class_of page_size ≡ Some 40) × (class_of (page_size + 1) ≡ None) }
{}
