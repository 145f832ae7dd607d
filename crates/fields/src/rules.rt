// Facts about the rules that no single call states: worked readings, and numeric kinds by their spellings.
ghost use Rattle.fields.specs.Examples.{ReadExamples};
ghost use Rattle.fields.specs.Spellings.{SpellingRules};

// The worked readings hold.
pub fn worked_readings()
    ensures { ReadExamples }
{}

// Each numeric kind reads a number exactly where its one spelling stands and the field ends.
pub fn read_by_spelling()
    ensures { SpellingRules }
{}
