/// Texts, and what may stand behind them: `name` for each name, `1..16`, `whole` and `decimal` for numbers
/// that are exponents, other whole ones and others, `str` for strings.
pub(crate) const FILES: &[(&str, &str)] = &[
    ("", "import from str pass module component interface end"),
    ("import ", "name"),
    ("import a ", "from , ; newline"),
    ("import a, ", "name"),
    ("import a, b ", ", ; newline"),
    ("import a, b, ", "name"),
    ("import a from ", "str"),
    ("import a from 's' ", "; newline"),
    ("from ", "str"),
    ("from 's' ", "import"),
    ("from 's' import ", "name"),
    ("from 's' import a ", ", ; newline"),
    ("from 's' import a, ", "name"),
    ("from 's' import a, b ", ", ; newline"),
    ("'s' ", "; newline"),
    ("pass ", "; newline"),
    ("pass; ", "import from str pass newline"),
    ("import a; ", "import from str pass newline"),
    ("pass; 's' ", "; newline"),
    ("'s'; pass; ", "import from str pass newline"),
    (
        "pass\n",
        "import from str pass module component interface end",
    ),
    (
        "import a;\n",
        "import from str pass module component interface end",
    ),
    ("module ", "name"),
    ("component ", "name"),
    ("interface ", "name"),
    ("module M ", "from :"),
    ("component M from ", "name"),
    ("interface M from N ", ":"),
    ("module M:", "name str pass signal pin assert newline"),
    (
        "module M from N:",
        "name str pass signal pin assert newline",
    ),
    ("module M:\n", "indent"),
    ("module M:\n ", "name str pass signal pin assert"),
    ("module M: pass ", "; newline"),
    (
        "module M: pass; ",
        "name str pass signal pin assert newline",
    ),
    (
        "module M: pass\n",
        "import from str pass module component interface end",
    ),
    (
        "module M: pass;\n",
        "import from str pass module component interface end",
    ),
    ("module M:\n pass ", "; newline"),
    (
        "module M:\n pass; ",
        "name str pass signal pin assert newline",
    ),
    (
        "module M:\n pass\n ",
        "name str pass signal pin assert dedent",
    ),
    (
        "module M:\n pass;\n ",
        "name str pass signal pin assert dedent",
    ),
    (
        "module M:\n pass\n pass\n ",
        "name str pass signal pin assert dedent",
    ),
    (
        "module M:\n pass\n",
        "import from str pass module component interface end",
    ),
    (
        "module M:\n pass\nmodule N: pass\n",
        "import from str pass module component interface end",
    ),
];
