// What the program says of itself.

// What lines there are and what each is answered, and what else is answered: a screenful.
const LINES: [&str; 22] = [
    "planshell [FOLDER]: plans radio links over the terrain files of a folder.",
    "",
    "use NK17                  use 40 17      NK17 is in use: its base and zone",
    "site FARM 478300 4436750  site 1         so many sites are held, at most 32",
    "path FARM MILL            path 27 clear  steps of 500 m; clear or blocked",
    "                                         without masts",
    "masts FARM MILL 40 30     masts 26 12    the lowest two masts that see each",
    "                                         other, of at most 40 and 30 m",
    "",
    "A name is a capital letter, then up to 11 capitals, digits or hyphens.",
    "",
    "taken      a site has that name",
    "full       there are 32 sites",
    "unknown    no site has that name",
    "bad 12     the line is wrong from column 12 on",
    "refused 1  no file is in use; or it is missing, unreadable, longer than 60",
    "           records or broken off",
    "refused 3  the file's index is damaged; an earlier file stays in use",
    "refused 4  a site is not on the file's ground",
    "refused 5  the ground is not covered    refused 6  a height is missing",
    "refused 7  the sites are the same, or more than 100 km apart",
    "refused 8  a limit is above 100 m       refused 9  no two masts are enough",
];

// Whether the argument is `--help`.
pub(crate) fn is_asked(argument: &[u8]) -> bool {
    argument == b"--help".as_slice()
}

// Shows the lines and the answers, as far as the output takes them.
pub(crate) fn show(rt: &impl Print) {
    for text in LINES {
        let _ = rt.write_all(text.as_bytes());
        let _ = rt.write_all(b"\n");
    }
}

// Says on standard error that the argument is no folder.
pub(crate) fn complain(errors: &impl Print, argument: &[u8]) {
    let _ = errors.write_all(b"planshell: no folder: ");
    let _ = errors.write_all(argument);
    let _ = errors.write_all(b"\n");
}

// Says on standard error that there are too many arguments.
pub(crate) fn complain_of_more(errors: &impl Print) {
    let _ = errors.write_all(b"planshell: one folder at most; --help shows the lines\n");
}
