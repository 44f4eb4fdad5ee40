//! A law of the protocol's numbers, the contract of a function that does nothing.

ghost use Rattle.std.specs.Prelude.{◌≡◌};
ghost use Rattle.mc_sizes.specs.Classes.{page_size};
ghost use Rattle.mc_sizes.specs.Needs.{largest_charge};
ghost use Rattle.mc_sizes.specs.declared.block.TheConstants.{HEADER_SIZE, LARGEST_BLOCK};
ghost use Rattle.mc_protocol.specs.Commands.{longest_key};
ghost use Rattle.mc_protocol.specs.Plain.{chunk_head};

/// States how many bytes a page, the largest charge, the largest block, an item's header and the
/// longest key have. It does nothing.
///
/// Definitions cite constants of `mc_sizes` and `mc_protocol`. Their values stand here once more.
pub fn numbers_of_the_protocol()
    ensures page { page_size ≡ 1048576 }
    ensures charge { largest_charge ≡ 8388608 }
    ensures block { LARGEST_BLOCK ≡ 8388560 }
    ensures header { HEADER_SIZE ≡ 48 }
    ensures head { chunk_head ≡ 48 }
    ensures key { longest_key ≡ 250 }
{}
