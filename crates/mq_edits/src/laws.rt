// Laws of the definitions.
ghost use Rattle.mq_edits.specs.Edited.{EditedRowsAreRead};
ghost use Rattle.mq_edits.specs.Examples.{AreAnswered};

/// Law. Rows that are read for a network are read for it also after edits that are read for that network and those rows.
/// Does nothing when it runs.
pub fn edited_rows_are_read()
    ensures { EditedRowsAreRead }
{}

/// Law. The texts in the examples have the faults and edits that the examples state, and the edits make the rows stated
/// there. Does nothing when it runs.
pub fn edits_are_answered()
    ensures { AreAnswered }
{}
