// What typing with data is, where there is no data; and what stands in no data.

ghost use Rattle.mz_check_data.specs.NoData.{ChangesNothing, HasNoTexts};
ghost use Rattle.mz_check_data.specs.Sections.{HasSections};

/// The law that a model without data is typed with data as it is without.
pub fn no_data_changes_nothing()
    ensures { ChangesNothing }
{}

/// The law that no text literal stands in the typed values of data.
pub fn data_has_no_texts()
    ensures { HasNoTexts }
{}

/// The law that a model that is typed with its data has its sections, with the values of the data.
pub fn data_fills_sections()
    ensures { HasSections }
{}
