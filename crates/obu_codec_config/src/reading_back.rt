//! Laws of written payloads.
ghost use Rattle.obu_codec_config.specs.WrittenPayloads.{HeaderReadsBack, CodecReadsBack, CodecHasOneEntry};

/// What `SequenceHeader::write` gives for a valid record is read as the same record, and with no error.
pub fn written_sequence_header_law()
    ensures { HeaderReadsBack }
{}

/// What `CodecConfig::write` gives for a valid record is read as the same record, and with no error.
pub fn written_codec_config_law()
    ensures { CodecReadsBack }
{}

/// A record stands for at most one valid entry, so for one list of fields.
pub fn codec_config_entry_law()
    ensures { CodecHasOneEntry }
{}
