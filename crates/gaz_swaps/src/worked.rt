//! The files of two loads and a day, and what a mirror answers after each.
use crate::asking::Asked;

pub const DUMP: &str = "allCountries.txt";

pub const ALTERNATES: &str = "alternateNamesV2.txt";

pub const LINKS: &str = "hierarchy.txt";

pub const COUNTRIES: &str = "countryInfo.txt";

pub const ADMIN1: &str = "admin1CodesASCII.txt";

pub const ADMIN2: &str = "admin2Codes.txt";

pub const MODIFICATIONS: &str = "modifications-2024-03-02.txt";

pub const DELETES: &str = "deletes-2024-03-02.txt";

pub const ALT_MODIFICATIONS: &str = "alternateNamesModifications-2024-03-02.txt";

pub const ALT_DELETES: &str = "alternateNamesDeletes-2024-03-02.txt";

/// The date of the first load, of the day after it, and of the other load.
pub const FIRST: &str = "2024-03-01";

pub const AFTER: &str = "2024-03-02";

pub const OTHER: &str = "2024-05-01";

/// A file by its name and the texts of which it is made.
pub type File<'a> = (&'a str, &'a [&'a str]);

const ONE: &str = "1\tOne\tOne\t\t1\t2\tA\tADM1\tAA\t\t01\t\t\t\t10\t\t\t\t2024-02-01\n";

const TWO: &str = "2\tTwo\tTwo\t\t-3.5\t4\tP\tPPL\tAA\t\t01\t\t\t\t20\t\t\t\t2024-02-01\n";

const THREE: &str = "3\tDrei\tDrei\t\t5\t-6\tP\tPPL\tAA\t\t\t\t\t\t\t\t\t\t\n";

/// A later row with the id of the second one.
const LATER_TWO: &str = "2\tZwo\tZwo\t\t7\t8\tP\tPPLA\tBB\t\t\t\t\t\t21\t\t\t\t2024-03-02\n";

const FOUR: &str = "4\tFour\tFour\t\t0\t0\tP\tPPL\tBB\t\t\t\t\t\t4\t\t\t\t2024-03-02\n";

const COUNTRY: &str = "AA\t\t\t\t\t\t\t\t\t\t\t\t\t\t\t\t1\n";

const OTHER_COUNTRY: &str = "BB\t\t\t\t\t\t\t\t\t\t\t\t\t\t\t\t5\n";

const FIVE: &str = "5\tFive\tFive\t\t9\t9\tP\tPPL\tBB\t\t07\t\t\t\t5\t\t\t\t2024-04-01\n";

/// Three rows and a few lines of each other table.
pub const DUMP_FILES: &[File<'static>] = &[
    (DUMP, &[ONE, TWO, THREE]),
    (
        ALTERNATES,
        &[
            "10\t1\tde\tEins\n",
            "11\t2\tde\tZwei\n",
            "12\t3\ten\tThree\n",
        ],
    ),
    (LINKS, &["1\t3\n", "1\t2\tADM\n"]),
    (COUNTRIES, &["# a comment\n", COUNTRY]),
    (ADMIN1, &["AA.01\tOne\tOne\t1\n"]),
    (ADMIN2, &["AA.01.001\tSub\tSub\t2\n"]),
];

/// A row is changed, one is new and one deleted, and an alternate name is changed, one is new and one deleted.
pub const DAY_FILES: &[File<'static>] = &[
    (MODIFICATIONS, &[LATER_TWO, FOUR]),
    (DELETES, &["3\tDrei\tgone\n"]),
    (
        ALT_MODIFICATIONS,
        &["11\t2\ten\tTwo\n", "13\t4\ten\tFour\n"],
    ),
    (ALT_DELETES, &["10\t1\tEins\tgone\n"]),
];

/// Another dump.
pub const OTHER_FILES: &[File<'static>] = &[
    (DUMP, &[TWO, FIVE]),
    (ALTERNATES, &["10\t5\t\tCinq\n"]),
    (LINKS, &[]),
    (COUNTRIES, &[OTHER_COUNTRY]),
    (ADMIN1, &["BB.07\tSeven\tSeven\t5\n"]),
    (ADMIN2, &[]),
];

/// How many rows are asked for.
pub const ROWS: u32 = 6;

/// Every alternate name, country and code that one of these has, and some that none has.
pub const ASKED: &[Asked] = &[
    Asked::Alternate(9),
    Asked::Alternate(10),
    Asked::Alternate(11),
    Asked::Alternate(12),
    Asked::Alternate(13),
    Asked::Country("AA"),
    Asked::Country("BB"),
    Asked::Country("A"),
    Asked::Code("AA.01"),
    Asked::Code("AA.01.001"),
    Asked::Code("BB.07"),
    Asked::Code("AA"),
];

/// The answers to these of a mirror that has none of them.
pub const NONE_ASKED: &str = "-\n-\n-\n-\n-\n-\n-\n-\n-\n-\n-\n-\n";

/// What is answered where nothing was loaded.
pub const NOTHING: &[&str] = &["nothing is loaded\n"];

/// The answers after the first load: rows 1 to 6, the others in their order, and the links by their children.
pub const LOADED: &[&str] = &[
    "2024-03-01: 3 rows, 3 alternates, 2 links, 1 countries, 2 codes\n",
    ONE,
    TWO,
    THREE,
    "-\n-\n-\n",
    "-\n10\t1\tde\tEins\n11\t2\tde\tZwei\n12\t3\ten\tThree\n-\n",
    COUNTRY,
    "-\n-\n",
    "AA.01\tOne\tOne\t1\nAA.01.001\tSub\tSub\t2\n-\n-\n",
    "1\t2\tADM\n1\t3\n",
];

/// The answers after the day. The names and links of a row that is deleted stay.
pub const NEXT: &[&str] = &[
    "2024-03-02: 3 rows, 3 alternates, 2 links, 1 countries, 2 codes\n",
    ONE,
    LATER_TWO,
    "-\n",
    FOUR,
    "-\n-\n",
    "-\n-\n11\t2\ten\tTwo\n12\t3\ten\tThree\n13\t4\ten\tFour\n",
    COUNTRY,
    "-\n-\n",
    "AA.01\tOne\tOne\t1\nAA.01.001\tSub\tSub\t2\n-\n-\n",
    "1\t2\tADM\n1\t3\n",
];

/// The answers after the other load, of which nothing of before is left.
pub const RELOADED: &[&str] = &[
    "2024-05-01: 2 rows, 1 alternates, 0 links, 1 countries, 1 codes\n",
    "-\n",
    TWO,
    "-\n-\n",
    FIVE,
    "-\n",
    "-\n10\t5\t\tCinq\n-\n-\n-\n",
    "-\n",
    OTHER_COUNTRY,
    "-\n",
    "-\n-\nBB.07\tSeven\tSeven\t5\n-\n",
];
