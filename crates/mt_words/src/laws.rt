//! Laws of the words, over the definitions alone. Each is the contract of a function that does
//! nothing.

ghost use Rattle.std.specs.Prelude.{◌≡◌, ◌↔◌, ◌<◌, ◌≤◌, ◌^◌, ℕ, List, IsSome, None, Some, decimal};
ghost use Rattle.std.specs.Option.{option_map};
ghost use Rattle.mt_files.specs.Field.{number_between};
ghost use Rattle.mt_words.specs.Words.{asked, files_of, serve_files, serve_words};

use mt_files::numbers_have_one_spelling;

/// A word is a number of a range exactly where that number is written so.
pub fn numbers_are_as_they_are_written()
    ensures { (least most number : ℕ) (word : List ℕ) → most < 2 ^ 64
        → (number_between least most word ≡ Some number)
        ↔ ((decimal number ≡ word) × (least ≤ number) × (number ≤ most)) }
{
    numbers_have_one_spelling();
}

/// Words that ask for something name the files of it.
pub fn words_that_ask_name_files()
    ensures { (words : List (List ℕ)) → IsSome (asked words) → IsSome (files_of words) }
{}

/// Words of `serve` that have a form name their files and ask for nothing else.
pub fn words_that_serve_name_files()
    ensures files { (words : List (List ℕ)) → IsSome (serve_words words)
        → files_of words ≡ option_map serve_files (serve_words words) }
    ensures alone { (words : List (List ℕ)) → IsSome (serve_words words) → asked words ≡ None }
{}
