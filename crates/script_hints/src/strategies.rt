//! The strategies that modules of `strategies/` define.

use hint_text::has_word;

// A line is a module, and names that it defines.
const DEFINED: &str =
    "control repeat repeat1 while while-not do-while fixpoint topdown bottomup innermost
control innermost-built normalise-levels
environments new-environment enter-scope leave-scope bind bind-all put-all value-of value-here
environments assign visible
free-variables free-variables is-closed bound-here add-free add-free-of-each add-free-by-role
free-variables with-roles names-bound
lists is-list conc at-end concat reverse length last elem fetch fetch-elem lookup filter
lists remove-all zip unzip take drop merge-sort merge-runs merge-neighbours merge nub union isect
lists diff foldr foldl list-sort
names explode-string implode-string conc-strings concat-strings string-length string-gt string-lt
names string-search string-split string-join string-replace string-characters
names without-prefix to-upper to-lower upper-case lower-case capitalize-string newname
names newnames greatest-number fresh-number fresh-name renaming rename try-rename rename-apart
numbers add subt mul div mod inc dec gt lt geq leq max min is-int even int-to-string string-to-int
substitution substitute-free substitute-in substitute-in-scope substitute-by-role is-about
substitution to-variable unique-names alpha-equal unique unique-each unique-by-role number-names
tables table-put table-get table-remove table-keys table-pairs table-pair table-values table-size
tables table-of table-map
terms get-arguments take-arguments set-arguments set-each crush collect-all collect-all-of-each
terms collect collect-of-each
terms subterms occurrences occurrences-in-each substitute preserve-annos eq-ignore-annos
terms strip-annos compare term-gt term-lt is-string explode-term mkterm";

/// The module that defines a strategy of this name; nothing if none does.
pub fn module_defining(name: &[u8]) -> &'static str {
    for line in DEFINED.lines() {
        if let Some((module, names)) = line.split_once(' ')
            && has_word(names, name)
        {
            return module;
        }
    }
    ""
}
