//! The frame of a page. Written by tools/write_page.

pub static BEFORE_TITLE: &str = "\
<!doctype html>
<html lang=\"en\">
<head>
<meta charset=\"utf-8\">
<meta name=\"viewport\" content=\"width=device-width, initial-scale=1\">
<meta http-equiv=\"Content-Security-Policy\" content=\"default-src 'none'; style-src 'unsafe-inl\
ine'; base-uri 'none'; form-action 'none'; script-src 'sha256-zQxD0+YQlejQlh5uJFZ1e5KG8Mgr5i3m8A\
4t5RlSgWc='\">
<title>";

pub static BEFORE_STYLE: &str = "\
</title>
<style>
";

pub static BEFORE_TEXT: &str = "\
</style>
</head>
<body>
<a class=\"skip\" href=\"#steps\">Skip to the steps</a>
<div class=\"app\" id=\"app\" hidden>
<header>
<h1 id=\"title\"></h1>
<select id=\"plays\" aria-label=\"The play that is shown\" hidden></select>
<span id=\"moment\" class=\"faint mono\"></span>
<div class=\"tabs\" id=\"tabs\" role=\"group\" aria-label=\"What is shown\">
<button type=\"button\" data-tab=\"all\">All</button>
<button type=\"button\" data-tab=\"tasks\">Tasks</button>
<button type=\"button\" data-tab=\"picture\">Picture</button>
<button type=\"button\" data-tab=\"script\">Script</button>
<button type=\"button\" data-tab=\"journal\">Journal</button>
</div>
<button id=\"theme\" type=\"button\">◐</button>
</header>
<div class=\"bar\" id=\"steps\" role=\"group\" aria-label=\"Steps\" tabindex=\"-1\">
<div class=\"steps\">
<button id=\"first\" type=\"button\" title=\"To the beginning (Home)\" aria-label=\"To the begin\
ning\">|◀</button>
<button id=\"backline\" type=\"button\" title=\"A line back (Shift and the left arrow)\" aria-la\
bel=\"A line back\">◀◀</button>
<button id=\"back\" type=\"button\" title=\"An event back (left arrow)\" aria-label=\"An event b\
ack\">◀</button>
<button id=\"on\" type=\"button\" title=\"An event on (right arrow)\" aria-label=\"An event on\"\
>▶</button>
<button id=\"online\" type=\"button\" title=\"A line on (Shift and the right arrow)\" aria-label\
=\"A line on\">▶▶</button>
<button id=\"last\" type=\"button\" title=\"To the end (End)\" aria-label=\"To the end\">▶|</but\
ton>
</div>
<input id=\"slider\" type=\"range\" min=\"0\" step=\"1\" aria-label=\"Place in the play\">
<span class=\"where\" id=\"where\"></span>
<div class=\"now\">
<span id=\"line\" class=\"mono faint\"></span><span id=\"event\" class=\"mono\"></span><span id\
=\"because\" class=\"forced\"></span>
</div>
<div id=\"said\" class=\"unseen\" role=\"status\" aria-live=\"polite\"></div>
</div>
<main id=\"main\" data-tab=\"all\">
<section class=\"code\" aria-labelledby=\"script-head\">
<div class=\"head\"><h2 id=\"script-head\">Script</h2></div>
<div class=\"scroll\" id=\"script-scroll\" tabindex=\"0\" role=\"region\" aria-labelledby=\"scri\
pt-head\">
<ol class=\"rows mono\" id=\"script\"></ol>
</div>
</section>
<section class=\"picture\" aria-labelledby=\"tasks-head\">
<div class=\"head\"><h2 id=\"tasks-head\">Tasks</h2><span id=\"verdict\" class=\"faint\"></span>\
</div>
<ul class=\"cards\" id=\"cards\" tabindex=\"0\" aria-labelledby=\"tasks-head\"></ul>
<div class=\"time\" id=\"time\" tabindex=\"0\" role=\"region\"
  aria-label=\"The play as a picture: a column for each task, time from above\"></div>
</section>
<section class=\"side\">
<div class=\"whybox\" id=\"whybox\" aria-labelledby=\"why-head\">
<div class=\"head why\">
<h2 id=\"why-head\">Why</h2><button id=\"all\" type=\"button\" class=\"go\">All tasks</button>
</div>
<div id=\"why\"></div>
<details id=\"treebox\"><summary>Who depends on whom</summary><div class=\"tree\" id=\"tree\"></\
div></details>
</div>
<div class=\"head journal\"><h2 id=\"journal-head\">Journal</h2></div>
<div class=\"scroll journal\" id=\"journal-scroll\" tabindex=\"0\" role=\"region\" aria-labelled\
by=\"journal-head\">
<ol class=\"rows mono\" id=\"journal\"></ol>
</div>
</section>
</main>
</div>
<details id=\"plain\" open><summary>The play as text</summary><pre class=\"text\">";

pub static BEFORE_PLAYS: &str = "\
</pre></details>
<script type=\"application/json\" id=\"document\">";

pub static BEFORE_SCRIPT: &str = "\
</script>
<script>
";

pub static END: &str = "\
</script>
</body>
</html>
";
