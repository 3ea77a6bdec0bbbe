//! Laws on what words ask for.
ghost use Rattle.wl_words.specs.Asked.{ReadsEachWord};

/// Law: what is read of the word of a task alone is that task, over the standard devices and as text; or memory ran out.
pub fn a_word_is_read_as_its_task()
    ensures { ReadsEachWord }
{}
