//! Texts that several tests share.

/// A text with imports, a string, and a comment.
pub const FIRST: &str = "import os, sys as s  # import x\n\"import a\"\nimport os.path\n";

/// Its listing from standard input.
pub const FIRST_LINES: &str = "-:1 import os\n-:1 import sys as s\n-:3 import os.path\n";

/// A text that is not sorted.
pub const UNSORTED: &str =
    "from . import z\nimport sys\nimport requests\nfrom __future__ import annotations\nimport os\n";

/// The same text, sorted.
pub const SORTED: &str =
    "from __future__ import annotations\n\nimport os\nimport sys\n\nimport requests\n\nfrom . import z\n";

/// A text that asks to be left as it is.
pub const SKIPPED: &str = "\"\"\"isort: skip_file\"\"\"\nimport b\nimport a\n";

/// A text with a fault at byte 22, in line 3.
pub const BROKEN: &str = "import b\nimport a\nx = )";

/// Lines of `[tool.isort]` of a Django project.
pub const DJANGO: &str =
    "sections = [\"FUTURE\", \"STDLIB\", \"Django\", \"THIRDPARTY\"]\nknown_django = [\"django\"]\n";

/// A text that is not sorted under these settings.
pub const DJANGO_UNSORTED: &str = "import requests\nimport django.db\nimport os\nfrom . import z\n";

/// The same text, sorted under them.
pub const DJANGO_SORTED: &str =
    "import os\n\nimport django.db\n\nimport requests\n\nfrom . import z\n";

/// Imports that are alike: of one package, module or attribute.
pub const ALIKE: &[u8] = b"import a.b\nfrom a import c\nfrom .a import d\nfrom a import c as e\n";

/// A text with a declaration after two imports, and a fault after it.
pub const DECLARED: &[u8] = b"import a\nif a:\n    def f(): pass\n    import b\n@d\nx = (\n";

/// 200 brackets that open, and as many that close.
pub const BRACKETS: &[u8] =
    b"((((((((((((((((((((((((((((((((((((((((((((((((((((((((((((((((((((((((((((((((((((((((((((((((((((\
    ((((((((((((((((((((((((((((((((((((((((((((((((((((((((((((((((((((((((((((((((((((((((((((((((((((\
    ))))))))))))))))))))))))))))))))))))))))))))))))))))))))))))))))))))))))))))))))))))))))))))))))))))\
    ))))))))))))))))))))))))))))))))))))))))))))))))))))))))))))))))))))))))))))))))))))))))))))))))))))";

/// 201 brackets that open.
pub const TOO_MANY: &[u8] = &[b'('; 201];
