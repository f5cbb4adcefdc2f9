ghost use Rattle.spec_descriptors.specs.TagLaws.{TagsAreRead, OneListOfTags, WrittenHasTags, TagsAreWritten};

/// A tail is read as tags exactly where it begins with some, as one list of tags with one rest. Tags and a rest that are
/// written are read again, and no other tail has them.
pub fn one_reading_of_tags()
    ensures reads { TagsAreRead }
    ensures one { OneListOfTags }
    ensures written { WrittenHasTags }
    ensures same { TagsAreWritten }
{}
