//! The law that what the reference host answers without the host asked keeps the scratch folder: the number of its files, and each
//! file that a live handle holds open; and that what a handle stands for then is there.

ghost use Rattle.reference_host.specs.Keeping.{RowsKeep, ToldKeeps};

/// Rows keep the files that are held. It does nothing when it runs.
pub fn rows_keep_files()
    ensures { RowsKeep }
{}

/// A row of the code that is told as one that keeps them keeps them too. It does nothing when it runs.
pub fn told_rows_keep_files()
    ensures { ToldKeeps }
{}
