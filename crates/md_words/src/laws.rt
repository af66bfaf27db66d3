//! The laws of words, places and lanes. Each function does nothing: its contract is the law, for
//! every word and every shape.

ghost use Rattle.md_words.specs.WordLaws.{ValueFound, CountFound, PartsMakeWord, CountFits};
ghost use Rattle.md_words.specs.WordLaws.{ValueFits, CountedWordFits, ZeroIsEmpty, ZeroIsEven};
ghost use Rattle.md_words.specs.WordLaws.{EvenTurns, SpotFound, SpotMakesValue, SpotStands};
ghost use Rattle.md_words.specs.WordLaws.{StandingSpot, NodeFound, MarkFound, LinkMakesValue};
ghost use Rattle.md_words.specs.WordLaws.{StatusFound, ReadsFound, SerialFound, PartsMakeStatus};
ghost use Rattle.md_words.specs.WordLaws.{ReadsFit, StatusWordFits, StatusAdds, BeginsAt};
ghost use Rattle.md_words.specs.LayoutLaws.{AddressIsWord, AddressesDiffer, PlaceFound};
ghost use Rattle.md_words.specs.LayoutLaws.{WordIsPlace, BaseIsZero, BucketExists, WriteLands};
ghost use Rattle.md_words.specs.LayoutLaws.{WriteLeaves, WordLeaves, CountedByPlace, WordsFit};
ghost use Rattle.md_words.specs.LayoutLaws.{NodesFitValues, DescsFitValues, BaseNodesExist};
ghost use Rattle.md_words.specs.LayoutLaws.{NodeHasLane, DescHasLane, OwnNodeExists, OwnDescExists};
ghost use Rattle.md_words.specs.LayoutLaws.{NodeInLane, NodeNumber, NodesRise, OneDesc};

/// A word is made of its parts, and has the parts that it was made of.
pub fn word_laws()
    ensures value_found { ValueFound }
    ensures count_found { CountFound }
    ensures parts_make_word { PartsMakeWord }
    ensures count_fits { CountFits }
    ensures value_fits { ValueFits }
    ensures word_fits { CountedWordFits }
    ensures zero_is_empty { ZeroIsEmpty }
    ensures zero_is_even { ZeroIsEven }
    ensures even_turns { EvenTurns }
    ensures spot_found { SpotFound }
    ensures spot_makes_value { SpotMakesValue }
    ensures spot_stands { SpotStands }
    ensures standing_spot { StandingSpot }
    ensures node_found { NodeFound }
    ensures mark_found { MarkFound }
    ensures link_makes_value { LinkMakesValue }
    ensures status_found { StatusFound }
    ensures reads_found { ReadsFound }
    ensures serial_found { SerialFound }
    ensures parts_make_status { PartsMakeStatus }
    ensures reads_fit { ReadsFit }
    ensures status_fits { StatusWordFits }
    ensures status_adds { StatusAdds }
    ensures begins_at { BeginsAt }
{}

/// Each place of a field has a word of its own, and each word is that of one place.
pub fn layout_laws()
    ensures is_word { AddressIsWord }
    ensures differ { AddressesDiffer }
    ensures place_found { PlaceFound }
    ensures word_is_place { WordIsPlace }
    ensures base_is_zero { BaseIsZero }
    ensures bucket_exists { BucketExists }
    ensures write_lands { WriteLands }
    ensures write_leaves { WriteLeaves }
    ensures word_leaves { WordLeaves }
    ensures counted { CountedByPlace }
    ensures words_fit { WordsFit }
    ensures nodes_fit { NodesFitValues }
    ensures descs_fit { DescsFitValues }
{}

/// Each node past the base nodes belongs to one lane, and each lane has one descriptor.
pub fn lane_laws()
    ensures base_nodes { BaseNodesExist }
    ensures node_has_lane { NodeHasLane }
    ensures desc_has_lane { DescHasLane }
    ensures own_node_exists { OwnNodeExists }
    ensures own_desc_exists { OwnDescExists }
    ensures node_in_lane { NodeInLane }
    ensures node_number { NodeNumber }
    ensures nodes_rise { NodesRise }
    ensures one_desc { OneDesc }
{}
