//! Laws of varints and of fields.

ghost use Rattle.proto_fields.specs.Laws.{ReadInOneWay, ShortestIsVarint, ShortestIsShortest, BytesFieldIsRead, NumberFieldIsRead, NoFields, FirstField, NoField, FieldIsShorter, ReadWhateverFollows, FieldsInARow, AllBytesInARow, AllNumbersInARow, LastBytesCount, LastNumberCounts, SizeIsLength, NumberSizeIsLength};

/// The laws of varints. It changes nothing.
pub fn varint_laws()
    ensures one_way { ReadInOneWay }
    ensures varint { ShortestIsVarint }
    ensures shortest { ShortestIsShortest }
{}

/// The laws of fields. It changes nothing.
pub fn field_laws()
    // What is written is read back.
    ensures bytes { BytesFieldIsRead }
    ensures number { NumberFieldIsRead }
    ensures size { SizeIsLength }
    ensures number_size { NumberSizeIsLength }

    // A field is read in the same way whatever follows it, and fields one after another.
    ensures follows { ReadWhateverFollows }
    ensures shorter { FieldIsShorter }
    ensures none { NoFields }
    ensures first { FirstField }
    ensures refused { NoField }
    ensures row { FieldsInARow }

    // The last of several fields counts.
    ensures all_bytes { AllBytesInARow }
    ensures all_numbers { AllNumbersInARow }
    ensures last_bytes { LastBytesCount }
    ensures last_number { LastNumberCounts }
{}
